ghost use Rattle.std.specs.Prelude.{◌≡◌, IfOk};

use super::*;
use hier_types::{Geometry, PageNo};
use std::alloc::Global;
use std::test::Fail;

const SPAN: Geometry = Geometry { base: 16, pages: 4 };

/// Four bytes written over a file at a place.
type Change = (usize, [u8; 4]);

/// A program of three headers: attributes, which are ignored, and two loads. The bytes at 148 stand at 00010FFE;
/// two of those at 152 stand at 00012000, in 16 bytes of memory.
const PROGRAM: [u8; 156] = [
    0x7f, b'E', b'L', b'F', 1, 1, 1, 0, 0, 0, 0, 0, 0, 0, 0, 0, 2, 0, 243, 0, 1, 0, 0, 0, 0x00,
    0x10, 0x01, 0x00, 52, 0, 0, 0, 0, 0, 0, 0, 0, 0, 0, 0, 52, 0, 32, 0, 3, 0, 0, 0, 0, 0, 0, 0,
    0x03, 0, 0, 0x70, 148, 0, 0, 0, 0, 0, 0, 0, 0, 0, 0, 0, 8, 0, 0, 0, 0, 0, 0, 0, 4, 0, 0, 0, 1,
    0, 0, 0, 1, 0, 0, 0, 148, 0, 0, 0, 0xfe, 0x0f, 0x01, 0x00, 0, 0, 0, 0, 4, 0, 0, 0, 4, 0, 0, 0,
    5, 0, 0, 0, 4, 0, 0, 0, 1, 0, 0, 0, 152, 0, 0, 0, 0x00, 0x20, 0x01, 0x00, 0, 0, 0, 0, 2, 0, 0,
    0, 16, 0, 0, 0, 6, 0, 0, 0, 4, 0, 0, 0, 0xa1, 0xa2, 0xa3, 0xa4, 0xb1, 0xb2, 0xb3, 0xb4,
];

/// The program with some of its bytes changed.
fn program(alloc: Global, changes: &[Change]) -> Result<Vec<u8>, Fail> {
    let mut bytes = PROGRAM;
    for (place, new) in changes {
        for (index, byte) in new.iter().enumerate() {
            if let Some(at) = place.checked_add(index)
                && at < bytes.len()
            {
                bytes[at] = *byte;
            }
        }
    }
    let mut file = Vec::new(alloc);
    file.extend_from_slice(&bytes)?;
    Ok(file)
}

/// The image of the changed program in a span of four pages.
fn image(alloc: Global, changes: &[Change]) -> Result<Image, Fail>
    ensures { IfOk result (λ image. image.span.pages ≡ 4) }
{
    let file = program(alloc, changes)?;
    Ok(read_image(alloc, file, SPAN).ok().ok_or("refused")?)
}

/// Why the changed program is refused.
fn fault(alloc: Global, changes: &[Change]) -> Result<Option<(ImageKind, Option<u16>)>, Fail> {
    let file = program(alloc, changes)?;
    match read_image(alloc, file, SPAN) {
        Ok(_) => Ok(None),
        Err(fault) => Ok(Some((fault.kind, fault.header))),
    }
}

#[test]
fn a_program_of_two_loads(rt: HostRuntime) -> Result<(), Fail> {
    let image = image(rt.alloc(), &[])?;
    assert_eq!(rt; image.entry(), 0x0001_1000);
    assert_eq!(rt; image.end(), 0x0001_2010);
    let mut page = [7; 4096];
    image.page(PageNo(0), &mut page);
    assert_eq!(rt; &page[4092..], [0, 0, 0xa1, 0xa2].as_slice());
    image.page(PageNo(1), &mut page);
    assert_eq!(rt; &page[..4], [0xa3, 0xa4, 0, 0].as_slice());
    image.page(PageNo(2), &mut page);
    assert_eq!(rt; &page[..4], [0xb1, 0xb2, 0, 0].as_slice());
    image.page(PageNo(3), &mut page);
    assert_eq!(rt; page, [0; 4096]);
    Ok(())
}

#[test]
fn each_kind_and_its_header(rt: HostRuntime) -> Result<(), Fail> {
    for (place, bytes, kind, header) in [
        (0, [0x7e, b'E', b'L', b'F'], ImageKind::Magic, None),
        (4, [2, 1, 1, 0], ImageKind::Class, None),
        (4, [1, 2, 1, 0], ImageKind::Order, None),
        (4, [1, 1, 0, 0], ImageKind::Version, None),
        (20, [2, 0, 0, 0], ImageKind::Version, None),
        (16, [3, 0, 243, 0], ImageKind::Kind, None),
        (16, [2, 0, 3, 0], ImageKind::Machine, None),
        (36, [1, 0, 0, 0], ImageKind::Compressed, None),
        (42, [40, 0, 3, 0], ImageKind::HeaderTable, None),
        (42, [32, 0, 4, 0], ImageKind::HeaderTable, None),
        (28, [0xff, 0xff, 0xff, 0xff], ImageKind::HeaderTable, None),
        (52, [3, 0, 0, 0], ImageKind::Interpreter, Some(0)),
        (42, [32, 0, 1, 0], ImageKind::NoLoad, None),
        (42, [40, 0, 0, 0], ImageKind::NoLoad, None),
        (88, [153, 0, 0, 0], ImageKind::FileRange, Some(1)),
        (88, [0xff, 0xff, 0xff, 0xff], ImageKind::FileRange, Some(1)),
        (104, [3, 0, 0, 0], ImageKind::SizeOrder, Some(1)),
        (92, [0xfe, 0x0f, 0, 0], ImageKind::AddressRange, Some(1)),
        (
            92,
            [0xfe, 0xff, 0xff, 0xff],
            ImageKind::AddressRange,
            Some(1),
        ),
        (136, [1, 0x20, 0, 0], ImageKind::AddressRange, Some(2)),
        (124, [1, 0x10, 1, 0], ImageKind::Overlap, Some(2)),
        (124, [0xf0, 0x0f, 1, 0], ImageKind::Overlap, Some(2)),
    ] {
        let found = fault(rt.alloc(), &[(place, bytes)])?;
        assert_eq!(rt; found, Some((kind, header)), "{kind:?} at {place}");
    }
    Ok(())
}

#[test]
fn the_first_of_two_kinds(rt: HostRuntime) -> Result<(), Fail> {
    let past_file = [0xff, 0, 0, 0];
    for (one, other, kind, header) in [
        (
            (20, [2, 0, 0, 0]),
            (4, [1, 2, 1, 0]),
            ImageKind::Order,
            None,
        ),
        (
            (42, [40, 0, 3, 0]),
            (36, [1, 0, 0, 0]),
            ImageKind::Compressed,
            None,
        ),
        (
            (52, [3, 0, 0, 0]),
            (88, past_file),
            ImageKind::Interpreter,
            Some(0),
        ),
        (
            (104, [3, 0, 0, 0]),
            (120, past_file),
            ImageKind::FileRange,
            Some(2),
        ),
        (
            (120, past_file),
            (88, past_file),
            ImageKind::FileRange,
            Some(1),
        ),
        (
            (92, [0, 0, 0, 0]),
            (136, [1, 0, 0, 0]),
            ImageKind::SizeOrder,
            Some(2),
        ),
    ] {
        let found = fault(rt.alloc(), &[one, other])?;
        assert_eq!(rt; found, Some((kind, header)), "{kind:?}");
    }
    Ok(())
}

#[test]
fn what_is_accepted(rt: HostRuntime) -> Result<(), Fail> {
    for (place, bytes) in [
        // flags of floats, and section headers
        (36, [4, 0, 0, 0]),
        (32, [9, 9, 9, 9]),
        (46, [9, 9, 9, 9]),
        // the stack's header, and a load with other flags and another alignment
        (52, [0x51, 0xe5, 0x74, 0x64]),
        (108, [0, 0, 0, 0]),
        (112, [3, 0, 0, 0]),
        // memory up to the span's end, loads side by side, and an entry outside
        (136, [0, 0x20, 0, 0]),
        (124, [2, 0x10, 1, 0]),
        (24, [1, 0, 0, 0]),
    ] {
        let found = fault(rt.alloc(), &[(place, bytes)])?;
        assert_eq!(rt; found, None, "at {place}");
    }
    Ok(())
}

#[test]
fn a_load_without_memory(rt: HostRuntime) -> Result<(), Fail> {
    for start in [[0, 0x10, 1, 0], [0, 0x30, 1, 0], [0, 0, 0, 0xff]] {
        let empty = [(124, start), (132, [0, 0, 0, 0]), (136, [0, 0, 0, 0])];
        let image = image(rt.alloc(), &empty)?;
        assert_eq!(rt; image.end(), 0x0001_1002);
    }
    Ok(())
}

#[test]
fn a_short_file_and_many_loads(rt: HostRuntime) -> Result<(), Fail> {
    let alloc = rt.alloc();
    let mut short = program(alloc, &[])?;
    short.truncate(51);
    let fault = read_image(alloc, short, SPAN).err();
    assert_eq!(rt; fault.map(|fault| fault.kind), Some(ImageKind::Short));
    for (count, kind) in [(64, None), (65, Some(ImageKind::ManyLoads))] {
        let mut file = program(alloc, &[(42, [32, 0, count, 0])])?;
        file.truncate(52);
        for _ in 0..count {
            file.extend_from_slice(&[1, 0, 0, 0])?;
            file.extend_from_slice(&[0; 28])?;
        }
        let fault = read_image(alloc, file, SPAN).err();
        assert_eq!(rt; fault.map(|fault| fault.kind), kind, "{count} loads");
    }
    Ok(())
}
