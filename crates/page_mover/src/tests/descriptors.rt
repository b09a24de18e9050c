// Each call by descriptor.
ghost use Rattle.std.specs.Prelude.{◌≡◌, ◌≤◌, IsTrue};
ghost use Rattle.line_codec.specs.Layout.{IsTarget, chunks_of, stored_sizes};
ghost use Rattle.page_slots.specs.Descs.{shape_of};
ghost use Rattle.page_slots.specs.Sound.{IsSound};

use super::{even, repeated};
use crate::*;
use buddy_frames::{Block, Frames};
use hier_types::{Codec, Line};
use page_plan::PageSizes;
use page_slots::{Desc, PlaceKind, PlaceRow, Shape, Slots, get, lay, place};
use std::alloc::Global;

/// A block of order 2.
fn block_in(alloc: Global) -> Option<Block> {
    let mut frames = Frames::new(alloc, 1).ok()?;
    frames.take(2)
}

/// Whether a block of order 2 holds these lines in slots of so many bytes.
fn has_room(codec: Codec, target: u8, lines: &[Line; 64]) -> bool
    requires { IsTarget target }
    ensures { IsTrue result → chunks_of (stored_sizes codec lines.now) target ≤ 32 }
{
    1 + target + PageSizes::of(codec, lines).exceptions(target) <= 32
}

/// A page in slots of so many bytes, in a block of order 2.
fn laid_in(
    codec: Codec,
    target: u8,
    lines: &[Line; 64],
    block: Block,
    bytes: &mut [u8; 2048],
) -> Desc
    requires is_target { IsTarget target }
    requires order { block.order ≡ 2 }
    requires room { chunks_of (stored_sizes codec lines.now) target ≤ 32 }
    ensures { IsSound codec (shape_of result) bytes.new }
{
    lay(codec, target, lines, bytes);
    Desc::Packed { block, target }
}

#[test]
fn a_descriptor_tells_and_makes_a_shift(rt: HostRuntime) {
    let Some(block) = block_in(rt.alloc()) else {
        panic!(rt; "no block");
    };
    assert_eq!(rt; block.order(), 2);
    let lines = [even(); 64];
    assert!(rt; has_room(Codec::Bdi, 24, &lines));
    let mut bytes = [0; 2048];
    let desc = laid_in(Codec::Bdi, 24, &lines, block, &mut bytes);
    assert_eq!(rt; far(Codec::Bdi, &desc, &bytes), 93);
    assert_eq!(rt; turn(Codec::Bdi, &desc, &bytes), TurnKind::Shift);
    let half = shift(Codec::Bdi, desc, &mut bytes);
    let slots = Slots::Mid {
        order: 2,
        small: 20,
        large: 24,
        at: 1,
    };
    assert_eq!(rt; half.shape(), Shape::Slotted(slots));
    assert_eq!(rt; far(Codec::Bdi, &half, &bytes), 92);
    for (line, at, room) in [(0, 64, 20), (1, 88, 24), (63, 1576, 24)] {
        let mut found = [0; 64];
        get(&half, &bytes, line, &mut found);
        assert_eq!(rt; found, even());
        let row = PlaceRow {
            kind: PlaceKind::Slot,
            line,
            at,
            room,
            used: 18,
        };
        assert_eq!(rt; place(&half, &bytes, line + 2), Some(row));
    }
}

#[test]
fn a_descriptor_tells_and_makes_a_hoist(rt: HostRuntime) {
    let Some(block) = block_in(rt.alloc()) else {
        panic!(rt; "no block");
    };
    assert_eq!(rt; block.order(), 2);
    let mut lines = [[0; 64]; 64];
    for index in 0..12usize {
        lines[index] = repeated();
    }
    assert!(rt; has_room(Codec::Bdi, 4, &lines));
    let mut bytes = [0; 2048];
    let desc = laid_in(Codec::Bdi, 4, &lines, block, &mut bytes);
    assert_eq!(rt; far(Codec::Bdi, &desc, &bytes), 93 + 8);
    assert_eq!(rt; turn(Codec::Bdi, &desc, &bytes), TurnKind::Hoist);
    hoist(Codec::Bdi, &desc, &mut bytes);
    assert_eq!(rt; (bytes[0], bytes[1]), (128 + 17, 128 + 6));
    assert_eq!(rt; far(Codec::Bdi, &desc, &bytes), 93 + 7);
}
