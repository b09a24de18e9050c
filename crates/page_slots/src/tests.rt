ghost use Rattle.std.specs.Prelude.{◌≡◌, ◌≢◌, ◌≤◌, if◌then◌else◌, IsTrue, length};
ghost use Rattle.line_codec.specs.Slots.{fits};
ghost use Rattle.line_codec.specs.Layout.{IsTarget, stored_sizes, chunks_of};
ghost use Rattle.page_slots.specs.Forms.{form_of};
ghost use Rattle.page_slots.specs.Moves.{CanHoist};
ghost use Rattle.page_slots.specs.Sound.{IsSound};
ghost use Rattle.page_slots.specs.Descs.{shape_of, content_of};

use super::*;
use buddy_frames::{Block, Frames};
use hier_types::{Codec, Line};
use line_codec::{from_slot, stored_size};
use sample_lines::{plain, rising};

/// The chunks that a line takes beside its slot of so many bytes.
fn chunks_beside(codec: Codec, target: u8, line: &Line) -> u8
    ensures { result ≡ if fits codec target line.now then 0 else 1 }
{
    match stored_size(codec, line) {
        Some(size) if size <= target => 0,
        _ => 1,
    }
}

/// The chunks that a packed page of these lines takes.
fn chunks_for(codec: Codec, target: u8, lines: &[Line; 64]) -> u8
    requires { target ≤ 28 }
    ensures { result ≡ chunks_of (stored_sizes codec lines.now) target }
{
    let mut chunks = 1 + target;
    for index in 0..64usize {
        chunks += chunks_beside(codec, target, &lines[index]);
    }
    chunks
}

/// A page of zeros but for its first lines.
fn page_of(first: Line, count: usize) -> [Line; 64] {
    let mut page = [[0; 64]; 64];
    for index in 0..64usize {
        if index < count {
            page[index] = first;
        }
    }
    page
}

/// A page in slots of four bytes, in the least block.
fn laid(codec: Codec, lines: &[Line; 64], block: Block, bytes: &mut [u8; 512]) -> Desc
    requires order { block.order ≡ 0 }
    requires room { chunks_of (stored_sizes codec lines.now) 4 ≤ 8 }
    ensures sound { IsSound codec (shape_of result) bytes.new }
    ensures not_zero { result ≢ Desc.Zero }
{
    lay(codec, 4, lines, bytes);
    Desc::Packed { block, target: 4 }
}

/// A page in slots of so many bytes, in a block of order 2.
fn laid_in(codec: Codec, target: u8, lines: &[Line; 64], bytes: &mut [u8; 2048]) -> Slots
    requires is_target { IsTarget target }
    requires room { chunks_of (stored_sizes codec lines.now) target ≤ 32 }
    ensures slots { result ≡ Slots.Packed 2 target }
    ensures sound { IsSound codec (Shape.Slotted result) bytes.new }
    ensures content { content_of (Shape.Slotted result) bytes.new ≡ lines.now }
{
    let slots = Slots::Packed { order: 2, target };
    Shape::Slotted(slots).lay(codec, lines, bytes);
    slots
}

/// Whether an exception in one of the chunks from `low` on and below `high` can move to a chunk above `above`.
fn can_hoist(slots: Slots, low: u8, high: u8, above: u8, bytes: &[u8]) -> bool
    requires { 64 ≤ length bytes.now }
    ensures { IsTrue result → CanHoist (form_of slots) low high above bytes.now }
{
    let form = slots.form();
    if form.large > above || above >= form.chunks || exceptions_between(bytes, low, high) == 0 {
        return false;
    }
    let taken = exceptions_between(bytes, 1 + above, form.chunks);
    1 + above + taken < form.chunks
}

#[test]
fn lines_fill_and_leave_the_chunks(rt: HostRuntime) {
    for codec in [Codec::Bdi, Codec::Fpc] {
        let Ok(mut frames) = Frames::new(rt.alloc(), 1) else {
            panic!(rt; "no memory");
        };
        let Some(block) = frames.take(0) else {
            panic!(rt; "no unit");
        };
        assert_eq!(rt; block.order(), 0);
        let lines = page_of(plain(), 3);
        assert_eq!(rt; chunks_for(codec, 4, &lines), 8);
        let mut bytes = [0; 512];
        let desc = laid(codec, &lines, block, &mut bytes);
        assert_eq!(rt;
            [bytes[0], bytes[1], bytes[2], bytes[3]],
            [0x85, 0x86, 0x87, 0x40]
        );
        let before = bytes;
        assert_eq!(rt;
            put(codec, &desc, &mut bytes, 9, &plain()),
            PutResult::Overflow
        );
        assert_eq!(rt; bytes, before);
        assert_eq!(rt; put(codec, &desc, &mut bytes, 0, &[0; 64]), PutResult::Done);
        assert_eq!(rt; bytes[0], 0x40);
        assert_eq!(rt;
            put(codec, &desc, &mut bytes, 60, &plain()),
            PutResult::Done
        );
        assert_eq!(rt; bytes[60], 0x85);
        let mut found = [0; 64];
        get(&desc, &bytes, 60, &mut found);
        assert_eq!(rt; found, plain());
    }
}

#[test]
fn places_of_a_packed_page(rt: HostRuntime) {
    let Ok(mut frames) = Frames::new(rt.alloc(), 1) else {
        panic!(rt; "no memory");
    };
    let Some(block) = frames.take(0) else {
        panic!(rt; "no unit");
    };
    assert_eq!(rt; block.order(), 0);
    let lines = page_of(plain(), 3);
    assert_eq!(rt; chunks_for(Codec::Bdi, 4, &lines), 8);
    let mut bytes = [0; 512];
    let desc = laid(Codec::Bdi, &lines, block, &mut bytes);
    for (index, kind, line, at, room, used) in [
        (0, PlaceKind::Block, 64, 0, 512, 512),
        (1, PlaceKind::Meta, 64, 0, 64, 64),
        (2, PlaceKind::Exception, 0, 320, 64, 64),
        (5, PlaceKind::Slot, 3, 76, 4, 2),
        (65, PlaceKind::Slot, 63, 316, 4, 2),
    ] {
        let row = PlaceRow {
            kind,
            line,
            at,
            room,
            used,
        };
        assert_eq!(rt; place(&desc, &bytes, index), Some(row));
    }
    assert_eq!(rt; place(&desc, &bytes, 66), None);
}

/// The bytes that the places of lines use, read by the codec, are the lines of the page.
#[test]
fn places_read_back(rt: HostRuntime) {
    for (codec, shortened) in [
        (Codec::Bdi, rising(0x0001_0000, 4)),
        (Codec::Fpc, rising(1, 1)),
    ] {
        let Ok(mut frames) = Frames::new(rt.alloc(), 1) else {
            panic!(rt; "no memory");
        };
        let Some(block) = frames.take(2) else {
            panic!(rt; "no block");
        };
        assert_eq!(rt; block.order(), 2);
        let mut lines = page_of(shortened, 60);
        lines[5] = plain();
        assert!(rt; chunks_for(codec, 28, &lines) <= 32);
        let mut bytes = [0; 2048];
        let shape = Shape::Slotted(Slots::Packed {
            order: 2,
            target: 28,
        });
        shape.lay(codec, &lines, &mut bytes);
        let desc = Desc::Packed { block, target: 28 };
        for index in 2..66u8 {
            let Some(row) = place(&desc, &bytes, index) else {
                panic!(rt; "no place");
            };
            assert_eq!(rt; row.line, index - 2);
            let at = row.at as usize;
            let Some(held) = bytes.get(at..at + row.used as usize) else {
                panic!(rt; "past the block");
            };
            let line = lines[index as usize - 2];
            match row.kind {
                PlaceKind::Slot => assert_eq!(rt; from_slot(held), Some(line)),
                _ => assert_eq!(rt; held, line.as_slice()),
            }
        }
    }
}

#[test]
fn raw_lines_have_their_places(rt: HostRuntime) {
    let Ok(mut frames) = Frames::new(rt.alloc(), 1) else {
        panic!(rt; "no memory");
    };
    let Some(block) = frames.take(3) else {
        panic!(rt; "no frame");
    };
    assert_eq!(rt; block.order(), 3);
    let mut lines = page_of(plain(), 64);
    let mut bytes = [0; 4096];
    lay_raw(&lines, &mut bytes);
    let desc = Desc::Raw { block };
    let line = rising(1, 1);
    assert_eq!(rt;
        put(Codec::Bdi, &desc, &mut bytes, 63, &line),
        PutResult::Done
    );
    assert_eq!(rt; [bytes[4031], bytes[4032], bytes[4033]], [0x12, 1, 0]);
    let last = PlaceRow {
        kind: PlaceKind::Raw,
        line: 63,
        at: 4032,
        room: 64,
        used: 64,
    };
    assert_eq!(rt; place(&desc, &bytes, 64), Some(last));
    assert_eq!(rt; place(&desc, &bytes, 65), None);
    lines[63] = line;
    let mut found = [[0; 64]; 64];
    gather(&desc, &bytes, &mut found);
    assert!(rt; found == lines);
}

/// Two lines that slots of 16 bytes hold, and slots of 8 do not, between two that move as they are.
#[test]
fn lines_move_to_smaller_slots_and_back(rt: HostRuntime) {
    for codec in [Codec::Bdi, Codec::Fpc] {
        let mut lines = page_of(rising(1, 0), 2);
        lines[2] = plain();
        assert!(rt; chunks_for(codec, 16, &lines) <= 32);
        assert!(rt; chunks_for(codec, 8, &lines) <= 24);
        let mut bytes = [0; 2048];
        let packed = laid_in(codec, 16, &lines, &mut bytes);
        let once = packed.shift_down(codec, 8, &mut bytes);
        let twice = once.shift_down(codec, 8, &mut bytes);
        assert_eq!(rt;
            twice,
            Slots::Mid {
                order: 2,
                small: 8,
                large: 16,
                at: 2
            }
        );
        assert_eq!(rt;
            [bytes[0], bytes[1], bytes[2], bytes[3]],
            [0x92, 0x93, 0x91, 0x40]
        );
        let mut found = [[0; 64]; 64];
        Shape::Slotted(twice).gather(&bytes, &mut found);
        assert!(rt; found == lines);
        let back = twice.shift_up(codec, 16, &mut bytes);
        let whole = back.shift_up(codec, 16, &mut bytes);
        assert_eq!(rt; whole, packed);
        assert_eq!(rt;
            [bytes[0], bytes[1], bytes[2], bytes[3]],
            [0, 0, 0x91, 0x40]
        );
        Shape::Slotted(whole).gather(&bytes, &mut found);
        assert!(rt; found == lines);
    }
}

#[test]
fn exceptions_leave_chunks(rt: HostRuntime) {
    let lines = page_of(plain(), 3);
    assert!(rt; chunks_for(Codec::Bdi, 4, &lines) <= 32);
    let mut bytes = [0; 2048];
    let slots = laid_in(Codec::Bdi, 4, &lines, &mut bytes);
    assert_eq!(rt; exceptions_between(&bytes, 5, 7), 2);
    assert!(rt; can_hoist(slots, 0, 9, 8, &bytes));
    slots.hoist(0, 9, 8, &mut bytes);
    assert_eq!(rt; [bytes[0], bytes[1], bytes[2]], [0x89, 0x86, 0x87]);
    assert_eq!(rt; exceptions_between(&bytes, 5, 7), 1);
    let mut found = [[0; 64]; 64];
    Shape::Slotted(slots).gather(&bytes, &mut found);
    assert!(rt; found == lines);
}

#[test]
fn zero_pages_have_no_bytes(rt: HostRuntime) {
    let mut found = plain();
    get(&Desc::Zero, &[], 5, &mut found);
    assert_eq!(rt; found, [0; 64]);
    assert_eq!(rt; place(&Desc::Zero, &[], 0), None);
}
