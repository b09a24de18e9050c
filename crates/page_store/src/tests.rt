ghost use Rattle.std.specs.Prelude.{◌≡◌, ◌≢◌, ◌≤◌, ◌*◌, ◌+◌, ℕ, length, IfOk};
ghost use Rattle.page_store.specs.Store.{HasZero, fresh};
ghost use Rattle.hier_types.specs.declared.settings.Codec.TheVariants.{Bdi};

mod turns;

use super::*;
use hier_types::{Codec, Geometry, Layer, Line, LineNo, NoMemory, NoSpace, PageNo, Totals};
use page_slots::{PlaceKind, PlaceRow};
use sample_lines::{plain, rising};
use std::alloc::Global;

// A line that takes 23 bytes in a slot.
fn shortened() -> Line {
    rising(0x0001_0000, 4)
}

fn store(alloc: Global, pages: u32, frames: u32) -> Result<Pages, NoMemory>
    requires some_pages { 1 ≤ pages }
    requires most_pages { pages ≤ 64 }
    requires some_frames { 1 ≤ frames }
    requires most_frames { frames ≤ 64 }
    ensures { IfOk result (λ made. made ≡ fresh (record { codec = Bdi; frames = frames; meta = 64 }) pages) }
{
    let geometry = Geometry { base: 16, pages };
    Pages::new(alloc, geometry, frames, Codec::Bdi, 64)
}

// Writes a line to the first lines of a page, and tells whether the last write was not refused.
fn fill(pages: &mut Pages, page: u32, count: u32, line: &Line) -> bool
    requires few { count ≤ 64 }
    requires inside { 64 * page + 64 ≤ length pages.old.lines }
    requires most { length pages.old.lines ≤ 4096 }
    ensures { length pages.new.lines ≡ length pages.old.lines }
{
    let mut done = true;
    for index in 0..count {
        done = pages.write(LineNo(64 * page + index), line).is_ok();
    }
    done
}

// Only the first line of the page is not zero.
fn first_line(line: Line) -> [u8; 4096] {
    let mut bytes = [0; 4096];
    bytes[..64].copy_from_slice(&line);
    bytes
}

// Places a page, and tells whether that was not refused.
fn place(pages: &mut Pages, page: u32, bytes: &[u8; 4096]) -> bool
    requires { HasZero pages.old page }
    ensures { (other : ℕ) → other ≢ page → HasZero pages.old other → HasZero pages.new other }
{
    pages.place_page(PageNo(page), bytes).is_ok()
}

/// A line in each of eight pages fills the frame with blocks of 512 bytes.
#[test]
fn nine_pages_in_one_frame(rt: HostRuntime) {
    let Ok(mut pages) = store(rt.alloc(), 9, 1) else {
        panic!(rt; "no memory");
    };
    assert_eq!(rt; pages.lines(), 576);
    assert_eq!(rt; (pages.free(0), pages.free(3)), (0, 1));
    for page in 0..8u32 {
        assert!(rt; fill(&mut pages, page, 1, &shortened()));
    }
    assert_eq!(rt; (pages.free(0), pages.free(3)), (0, 0));
    let refusal = NoSpace {
        page: PageNo(8),
        order: 0,
    };
    assert_eq!(rt; pages.write(LineNo(512), &shortened()), Err(refusal));
    let mut line = [7; 64];
    assert_eq!(rt; pages.read(LineNo(512), &mut line), Ok(()));
    assert_eq!(rt; line, [0; 64]);
    assert_eq!(rt; pages.write(LineNo(512), &[0; 64]), Ok(()));
    pages.tidy();
    pages.view(LineNo(448), &mut line);
    assert_eq!(rt; line, shortened());
    assert_eq!(rt; (pages.counts().reads, pages.counts().writes), (1, 9));
}

/// A page that was emptied in its place keeps its block until another page wants room.
#[test]
fn an_emptied_page_makes_room(rt: HostRuntime) {
    let Ok(mut pages) = store(rt.alloc(), 9, 1) else {
        panic!(rt; "no memory");
    };
    for page in 0..8u32 {
        assert!(rt; fill(&mut pages, page, 1, &shortened()));
    }
    assert!(rt; fill(&mut pages, 3, 1, &[0; 64]));
    assert_eq!(rt; (pages.free(0), pages.totals().zero), (0, 1));
    assert!(rt; fill(&mut pages, 8, 1, &shortened()));
    let mut line = [0; 64];
    pages.view(LineNo(512), &mut line);
    assert_eq!(rt; line, shortened());
}

/// Lines that no slot holds fill the chunks of the least block, and the fourth one has none. A page of zeros is not looked up.
#[test]
fn pages_are_looked_up_before_they_change(rt: HostRuntime) {
    for (count, hits, misses, blocks) in [(1, 0, 0, 512), (2, 0, 1, 512), (4, 2, 1, 1024)] {
        let Ok(mut pages) = store(rt.alloc(), 1, 1) else {
            panic!(rt; "no memory");
        };
        assert!(rt; fill(&mut pages, 0, count, &plain()));
        let counts = pages.counts();
        assert_eq!(rt; (counts.meta_hits, counts.meta_misses), (hits, misses));
        assert_eq!(rt; pages.totals().blocks, blocks);
        for index in 0..64u32 {
            let mut line = [7; 64];
            pages.view(LineNo(index), &mut line);
            let expected = if index < count { plain() } else { [0; 64] };
            assert_eq!(rt; line, expected);
        }
    }
}

/// A page whose first line no slot holds: slots of 4 bytes stand from byte 64 on, and the exception behind them.
#[test]
fn places_of_a_page(rt: HostRuntime) {
    let Ok(mut pages) = store(rt.alloc(), 2, 1) else {
        panic!(rt; "no memory");
    };
    assert!(rt; fill(&mut pages, 1, 1, &plain()));
    assert_eq!(rt;
        (
            pages.base_of(PageNo(0)),
            pages.base_of(PageNo(1)),
            pages.base_of(PageNo(2))
        ),
        (None, Some(0), None)
    );
    for (index, kind, line, at, room, used) in [
        (0, PlaceKind::Block, 64, 0, 512, 512),
        (1, PlaceKind::Meta, 64, 0, 64, 64),
        (2, PlaceKind::Exception, 0, 320, 64, 64),
        (3, PlaceKind::Slot, 1, 68, 4, 2),
        (65, PlaceKind::Slot, 63, 316, 4, 2),
    ] {
        let expected = PlaceRow {
            kind,
            line,
            at,
            room,
            used,
        };
        assert_eq!(rt; pages.layout_row(PageNo(1), index), Some(expected));
    }
    for (page, index) in [(0, 0), (1, 66), (2, 0)] {
        assert_eq!(rt; pages.layout_row(PageNo(page), index), None);
    }
}

/// A page of zeros and some lines that no slot holds, by the number of these.
#[test]
fn plans_by_plain_lines(rt: HostRuntime) {
    for (count, classes, exceptions, encoded, blocks) in [
        (3, (1, 0, 0, 0), 3, 314, 512),
        (4, (0, 1, 0, 0), 4, 376, 1024),
        (11, (0, 1, 0, 0), 11, 810, 1024),
        (12, (0, 0, 1, 0), 12, 872, 2048),
        (27, (0, 0, 1, 0), 27, 1802, 2048),
        (28, (0, 0, 0, 1), 0, 4096, 4096),
    ] {
        let Ok(mut pages) = store(rt.alloc(), 1, 1) else {
            panic!(rt; "no memory");
        };
        assert!(rt; fill(&mut pages, 0, count, &plain()));
        let (c512, c1024, c2048, c4096) = classes;
        let expected = Totals {
            zero: 0,
            c512,
            c1024,
            c2048,
            c4096,
            exceptions,
            encoded,
            blocks,
        };
        assert_eq!(rt; pages.totals(), expected);
    }
}

/// A page of zeros, one with a line of 23 bytes, one with twelve of them, and one of plain lines.
#[test]
fn totals_of_four_pages(rt: HostRuntime) {
    let Ok(mut pages) = store(rt.alloc(), 4, 4) else {
        panic!(rt; "no memory");
    };
    assert!(rt; fill(&mut pages, 1, 1, &shortened()));
    assert!(rt; fill(&mut pages, 2, 12, &shortened()));
    assert!(rt; fill(&mut pages, 3, 64, &plain()));
    let expected = Totals {
        zero: 1,
        c512: 1,
        c1024: 0,
        c2048: 1,
        c4096: 1,
        exceptions: 1,
        encoded: 190 + 380 + 4096,
        blocks: 512 + 2048 + 4096,
    };
    assert_eq!(rt; pages.totals(), expected);
}

/// Pages that are placed at once, until the frame is full.
#[test]
fn places_eight_pages_in_a_frame(rt: HostRuntime) {
    for (frames, ninth) in [(1, false), (2, true)] {
        let Ok(mut pages) = store(rt.alloc(), 9, frames) else {
            panic!(rt; "no memory");
        };
        let bytes = first_line(shortened());
        for page in 0..8u32 {
            assert!(rt; place(&mut pages, page, &bytes));
        }
        assert_eq!(rt; place(&mut pages, 8, &bytes), ninth);
        assert_eq!(rt; pages.counts().writes, 0);
    }
}
