ghost use Rattle.std.specs.Prelude.{◌≡◌, Some, IfOk, IsTrue};
ghost use Rattle.hier_types.specs.Span.{Has, line_at};

use super::*;
use elf_image::read_image;
use hier_types::{Geometry, Port};
use std::alloc::Global;
use std::test::Fail;

const SPAN: Geometry = Geometry { base: 16, pages: 2 };

/// A program of four bytes, which stand at 00010FFE, with an entry at 00010000.
const PROGRAM: [u8; 88] = [
    0x7f, b'E', b'L', b'F', 1, 1, 1, 0, 0, 0, 0, 0, 0, 0, 0, 0, 2, 0, 243, 0, 1, 0, 0, 0, 0, 0, 1,
    0, 52, 0, 0, 0, 0, 0, 0, 0, 0, 0, 0, 0, 52, 0, 32, 0, 1, 0, 0, 0, 0, 0, 0, 0, 1, 0, 0, 0, 84,
    0, 0, 0, 0xfe, 0x0f, 1, 0, 0, 0, 0, 0, 4, 0, 0, 0, 4, 0, 0, 0, 5, 0, 0, 0, 4, 0, 0, 0, 0xa1,
    0xa2, 0xa3, 0xa4,
];

fn memory(alloc: Global) -> Result<FlatMemory, Fail>
    ensures { IfOk result (λ memory. memory.span ≡ record { base = 16; pages = 2 }) }
{
    Ok(FlatMemory::new(alloc, SPAN).ok().ok_or("no memory")?)
}

/// Touches the line of an address, where there is one.
fn hold(memory: &mut FlatMemory, at: u32) -> bool
    ensures { IsTrue result → (Has memory.new.span at) × (memory.new.held ≡ Some (line_at memory.new.span at)) }
{
    let span = memory.span();
    span.has(at) && memory.touch(span.line_of(at)).is_ok()
}

/// The byte at an address, where there is one.
fn byte(memory: &mut FlatMemory, at: u32) -> Option<u8> {
    if !hold(memory, at) {
        return None;
    }
    Some(memory.peek(at))
}

#[test]
fn an_image_stands_at_its_addresses(rt: HostRuntime) -> Result<(), Fail> {
    let alloc = rt.alloc();
    let mut file = Vec::new(alloc);
    file.extend_from_slice(&PROGRAM)?;
    let image = read_image(alloc, file, SPAN).ok().ok_or("refused")?;
    let mut memory = memory(alloc)?;
    memory.load(&image);
    for (at, there) in [
        (0xffff, None),
        (0x1_0ffd, Some(0)),
        (0x1_0ffe, Some(0xa1)),
        (0x1_1000, Some(0xa3)),
        (0x1_1001, Some(0xa4)),
        (0x1_1fff, Some(0)),
        (0x1_2000, None),
    ] {
        assert_eq!(rt; byte(&mut memory, at), there, "at {at:x}");
    }
    Ok(())
}

#[test]
fn a_poked_byte_stays(rt: HostRuntime) -> Result<(), Fail> {
    let mut memory = memory(rt.alloc())?;
    assert!(rt; hold(&mut memory, 0x1_0041));
    memory.poke(0x1_0041, 7);
    for (at, there) in [(0x1_0080, 0), (0x1_0041, 7), (0x1_0040, 0)] {
        assert_eq!(rt; byte(&mut memory, at), Some(there), "at {at:x}");
    }
    Ok(())
}
