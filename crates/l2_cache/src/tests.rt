use crate::{Clean, L2};
use hier_types::{Codec, L2Counts, Layer, Line, LineNo, NoMemory, NoSpace, PageNo, PlainLines};
use std::alloc::Global;

/// One set with the room of one whole line, and two tags, over a page of plain lines, which refuse the listed calls.
fn one_way(alloc: Global, refuse: &[u64]) -> Result<L2<PlainLines>, NoMemory> {
    let below = PlainLines::new(alloc, 64, refuse.to_vec(alloc)?)?;
    L2::new(alloc, below, Codec::Bdi, 1, 1)
}

/// A line that no codec shortens: its bytes begin at `first` and go up by 101, modulo 256.
fn raw(first: u8) -> Line {
    let mut line = [0; 64];
    let mut byte = first;
    for place in 0..64usize {
        line[place] = byte;
        byte = byte.wrapping_add(101);
    }
    line
}

/// The first byte of a line.
fn byte_of<B: Layer>(layer: &B, line: u32) -> Option<u8> {
    if line >= layer.lines() {
        return None;
    }
    let mut bytes = [0; 64];
    layer.view(LineNo(line), &mut bytes);
    Some(bytes[0])
}

/// Writes a line, where there is one.
fn put(level: &mut L2<PlainLines>, line: u32, bytes: &Line) -> bool {
    line < level.lines() && level.write(LineNo(line), bytes).is_ok()
}

/// The first byte of a line that is read.
fn get(level: &mut L2<PlainLines>, line: u32) -> Option<u8> {
    let mut bytes = [0; 64];
    if line >= level.lines() || level.read(LineNo(line), &mut bytes).is_err() {
        return None;
    }
    Some(bytes[0])
}

#[test]
fn a_turn_that_was_put_off_is_made_again(rt: HostRuntime) {
    let Ok(mut level) = one_way(rt.alloc(), &[0]) else {
        panic!(rt; "no memory");
    };
    assert!(rt; put(&mut level, 0, &raw(1)));
    let refusal = NoSpace {
        page: PageNo(0),
        order: 0,
    };
    assert_eq!(rt; level.clean_turn(), Clean::PutOff(refusal));
    assert_eq!(rt; byte_of(level.below(), 0), Some(0));
    assert_eq!(rt; level.clean_turn(), Clean::Done);
    assert_eq!(rt; byte_of(level.below(), 0), Some(1));
    assert_eq!(rt; level.clean_turn(), Clean::Nothing);
}

/// Two lines that are not shortened do not fit beside each other, and two lines of zeros do.
#[test]
fn lines_leave_where_their_sizes_do_not_fit(rt: HostRuntime) {
    let Ok(mut level) = one_way(rt.alloc(), &[]) else {
        panic!(rt; "no memory");
    };
    assert!(rt; put(&mut level, 0, &raw(1)));
    assert_eq!(rt; byte_of(level.below(), 0), Some(0));
    assert!(rt; put(&mut level, 1, &raw(2)));
    assert_eq!(rt; byte_of(level.below(), 0), Some(1));
    for (line, byte) in [(2u32, 0u8), (3, 0), (2, 0), (1, 2), (1, 2)] {
        assert_eq!(rt; get(&mut level, line), Some(byte));
    }
    let counts = L2Counts {
        reads: 5,
        read_hits: 2,
        writes: 2,
        write_hits: 0,
    };
    assert_eq!(rt; level.counts(), counts);
}

/// The read of line 1 is refused, or the write of line 0, which has to leave for it. Made again, both are answered. A
/// flush writes a line that was changed since.
#[test]
fn a_refused_line_stays(rt: HostRuntime) {
    for refused in [0u64, 1] {
        let Ok(mut level) = one_way(rt.alloc(), &[refused]) else {
            panic!(rt; "no memory");
        };
        assert!(rt; put(&mut level, 0, &raw(7)));
        assert_eq!(rt; get(&mut level, 1), None);
        assert_eq!(rt; byte_of(level.below(), 0), Some(0));
        assert_eq!(rt; byte_of(&level, 0), Some(7));
        assert_eq!(rt; level.counts().reads, 0);
        assert_eq!(rt; get(&mut level, 1), Some(0));
        assert_eq!(rt; byte_of(level.below(), 0), Some(7));
        assert_eq!(rt; level.counts().reads, 1);
        assert!(rt; put(&mut level, 1, &raw(8)));
        assert_eq!(rt; byte_of(level.below(), 1), Some(0));
        assert!(rt; level.flush().is_ok());
        assert_eq!(rt; byte_of(level.below(), 1), Some(8));
    }
}
