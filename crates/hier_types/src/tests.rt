use super::*;
use std::alloc::Global;
use std::test::Fail;

#[test]
fn spans(rt: HostRuntime) {
    let geometry = Geometry {
        base: 16,
        pages: 4096,
    };
    assert_eq!(rt; geometry.first(), 0x1_0000);
    assert_eq!(rt; geometry.past(), 0x101_0000);
    for (at, inside) in [
        (0xffff, false),
        (0x1_0000, true),
        (0x100_ffff, true),
        (0x101_0000, false),
    ] {
        assert_eq!(rt; geometry.has(at), inside, "at {at:x}");
    }
    for (at, line) in [(0x1_003f, 0), (0x1_0040, 1), (0x100_ffff, 262_143)] {
        assert!(rt; geometry.has(at));
        assert_eq!(rt; geometry.line_of(at), LineNo(line), "at {at:x}");
    }
}

#[test]
fn words_of_beats(rt: HostRuntime) -> Result<(), Fail> {
    assert!(rt; BeatWord::new(&[]).is_none());
    assert!(rt; BeatWord::new(&[Beat::Mover, Beat::Cleaner]).is_none());
    assert!(rt; BeatWord::new(&[Beat::Hart; 65]).is_none());
    assert!(rt; BeatWord::new(&[Beat::Hart; 64]).is_some());
    let word = BeatWord::new(&[Beat::Mover, Beat::Hart]).ok_or("no word")?;
    assert_eq!(rt; word.len(), 2);
    assert_eq!(rt; word.beat_at(1), Beat::Hart);
    assert_eq!(rt; Settings::default().beats.len(), 16);
    Ok(())
}

#[test]
fn a_source_gives_its_bytes_once(rt: HostRuntime) -> Result<(), Fail> {
    let alloc = rt.alloc();
    let mut source = BytesSource::new(vec![in alloc; 1, 2, 3]?, vec![in alloc; 1]?);
    let mut two = [0; 2];
    assert_eq!(rt; source.read(&mut two), Ok(2));
    assert_eq!(rt; two, [1, 2]);
    assert_eq!(rt; source.read(&mut two), Err(Failed));
    assert_eq!(rt; source.left(), [3].as_slice());
    assert_eq!(rt; source.read(&mut two), Ok(1));
    assert_eq!(rt; source.read(&mut two), Ok(0));
    Ok(())
}

#[test]
fn a_sink_keeps_what_fits(rt: HostRuntime) -> Result<(), Fail> {
    let alloc = rt.alloc();
    let mut sink = BytesSink::new(alloc, 6, vec![in alloc; (1, 1)]?)
        .ok()
        .ok_or("no memory")?;
    assert_eq!(rt; sink.write(b"ab"), Ok(()));
    assert_eq!(rt; sink.write(b"cd"), Err(Failed));
    assert_eq!(rt; sink.write(b"efgh"), Err(Failed));
    assert_eq!(rt; sink.bytes(), b"abcefg".as_slice());
    assert_eq!(rt; NullSink.write(b"ab"), Ok(()));
    Ok(())
}

fn shelf(alloc: Global) -> Result<ListShelf, Fail> {
    let mut files = Vec::new(alloc);
    files.push((String::from_str(alloc, "a")?, vec![in alloc; 7, 8]?))?;
    files.push((String::from_str(alloc, "a")?, Vec::new(alloc)))?;
    Ok(ListShelf::new(files, vec![in alloc; 3]?))
}

#[test]
fn a_shelf_answers_by_name_and_length(rt: HostRuntime) -> Result<(), Fail> {
    let alloc = rt.alloc();
    let mut shelf = shelf(alloc)?;
    let file = shelf.load(alloc, "a", 2).ok().ok_or("no file")?;
    assert_eq!(rt; file.as_slice(), [7, 8].as_slice());
    assert_eq!(rt; shelf.load(alloc, "a", 1).err(), Some(ShelfFault::TooLong));
    assert_eq!(rt; shelf.load(alloc, "b", 2).err(), Some(ShelfFault::Failed));
    assert_eq!(rt; shelf.load(alloc, "a", 2).err(), Some(ShelfFault::Failed));
    Ok(())
}

#[test]
fn plain_lines_refuse_where_they_are_told(rt: HostRuntime) -> Result<(), Fail> {
    let alloc = rt.alloc();
    let mut lines = PlainLines::new(alloc, 128, vec![in alloc; 1]?)
        .ok()
        .ok_or("no memory")?;
    assert_eq!(rt; lines.lines(), 128);
    assert_eq!(rt; lines.write(LineNo(70), &[9; 64]), Ok(()));
    let mut line = [1; 64];
    let refusal = NoSpace {
        page: PageNo(1),
        order: 0,
    };
    assert_eq!(rt; lines.read(LineNo(70), &mut line), Err(refusal));
    assert_eq!(rt; line, [1; 64]);
    assert_eq!(rt; lines.read(LineNo(70), &mut line), Ok(()));
    assert_eq!(rt; line, [9; 64]);
    lines.view(LineNo(0), &mut line);
    assert_eq!(rt; line, [0; 64]);
    Ok(())
}
