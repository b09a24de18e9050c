// Turns of the mover, and the tidying that makes the same turns.
ghost use Rattle.std.specs.Prelude.{◌≡◌, ◌<◌, ◌≤◌, ◌+◌, ◌*◌, length};

use super::*;
use page_mover::TurnKind;

// A line that takes 18 bytes in a slot: all words are 00001000 but the last but one.
fn even() -> Line {
    let mut line = [0; 64];
    for word in 0..16usize {
        line[4 * word + 1] = 0x10;
    }
    line[56] = 0x7F;
    line
}

// A line that takes 9 bytes in a slot: the same eight bytes over and over.
fn repeated() -> Line {
    let mut line = [0; 64];
    for index in 0..64usize {
        line[index] = 0x88 - 0x11 * (index as u8 % 8);
    }
    line
}

// Makes so many turns of the mover, and tells whether all were of this kind.
fn turns(pages: &mut Pages, kind: TurnKind, count: u32) -> bool
    ensures { length pages.new.lines ≡ length pages.old.lines }
{
    let mut alike = true;
    for _turn in 0..count {
        alike &= pages.mover_turn() == kind;
    }
    alike
}

// Writes a line of some pages, and tells whether that was not refused.
fn put(pages: &mut Pages, line: u32, from: &Line) -> bool
    requires { line < length pages.old.lines }
    ensures { length pages.new.lines ≡ length pages.old.lines }
{
    pages.write(LineNo(line), from).is_ok()
}

// Fills a page with long lines and then with shorter ones, and tells whether that was not refused.
fn shrink(pages: &mut Pages, page: u32) -> bool
    requires inside { 64 * page + 64 ≤ length pages.old.lines }
    requires most { length pages.old.lines ≤ 4096 }
    ensures { length pages.new.lines ≡ length pages.old.lines }
{
    fill(pages, page, 64, &shortened()) && fill(pages, page, 64, &even())
}

fn line_at(pages: &Pages, line: u32) -> Line
    requires { line < length pages.now.lines }
{
    let mut bytes = [0; 64];
    pages.view(LineNo(line), &mut bytes);
    bytes
}

// Where a line of page 0 stands.
fn place_of(pages: &Pages, line: u8) -> Option<(PlaceKind, u16, u16)>
    requires { line < 64 }
{
    let row = pages.layout_row(PageNo(0), line + 2)?;
    Some((row.kind, row.at, row.room))
}

/// A page of long lines that become shorter, with two long ones again on the way.
#[test]
fn lines_move_down_and_back_up(rt: HostRuntime) {
    let Ok(mut pages) = store(rt.alloc(), 1, 1) else {
        panic!(rt; "no memory");
    };
    assert!(rt; shrink(&mut pages, 0));
    assert!(rt; turns(&mut pages, TurnKind::Shift, 20));
    assert_eq!(rt;
        place_of(&pages, 19),
        Some((PlaceKind::Slot, 64 + 20 * 19, 20))
    );
    assert_eq!(rt;
        place_of(&pages, 20),
        Some((PlaceKind::Slot, 64 + 24 * 20, 24))
    );
    assert!(rt; put(&mut pages, 5, &shortened()) && put(&mut pages, 40, &shortened()));
    assert_eq!(rt;
        place_of(&pages, 5),
        Some((PlaceKind::Exception, 64 * 25, 64))
    );
    assert_eq!(rt;
        place_of(&pages, 40),
        Some((PlaceKind::Slot, 64 + 24 * 40, 24))
    );
    assert!(rt; turns(&mut pages, TurnKind::Shift, 20));
    assert_eq!(rt;
        place_of(&pages, 5),
        Some((PlaceKind::Slot, 64 + 24 * 5, 24))
    );
    assert!(rt; turns(&mut pages, TurnKind::Next, 1));
    for line in 0..64u32 {
        let expected = if line == 5 || line == 40 {
            shortened()
        } else {
            even()
        };
        assert_eq!(rt; line_at(&pages, line), expected);
    }
    assert_eq!(rt;
        (pages.counts().mover_turns, pages.counts().tidy_turns),
        (41, 0)
    );
}

/// Twelve exceptions become shorter: eight make room for wider slots, all lines move there, and the page gives half of its
/// block back.
#[test]
fn exceptions_make_room_for_wider_slots(rt: HostRuntime) {
    let Ok(mut pages) = store(rt.alloc(), 1, 1) else {
        panic!(rt; "no memory");
    };
    assert!(rt; fill(&mut pages, 0, 12, &plain()));
    assert!(rt; fill(&mut pages, 0, 12, &repeated()));
    for (kind, count, free) in [
        (TurnKind::Hoist, 8, 0),
        (TurnKind::Shift, 64, 0),
        (TurnKind::Halve, 1, 1),
        (TurnKind::Next, 1, 1),
    ] {
        assert!(rt; turns(&mut pages, kind, count));
        assert_eq!(rt; (pages.free(1), pages.free(2)), (free, 1));
    }
    assert_eq!(rt;
        place_of(&pages, 63),
        Some((PlaceKind::Slot, 64 + 12 * 63, 12))
    );
    assert_eq!(rt; line_at(&pages, 11), repeated());
}

/// A page whose lines stand one after another, until they become zero: all of them, or all but the first.
#[test]
fn raw_pages_are_laid_anew_or_given_back(rt: HostRuntime) {
    for (first, kind, blocks, exceptions) in [
        ([0; 64], TurnKind::Zero, 0, 0),
        (plain(), TurnKind::Rewrite, 512, 1),
    ] {
        let Ok(mut pages) = store(rt.alloc(), 1, 1) else {
            panic!(rt; "no memory");
        };
        assert!(rt; fill(&mut pages, 0, 64, &plain()));
        assert!(rt; fill(&mut pages, 0, 64, &[0; 64]));
        assert_eq!(rt; pages.write(LineNo(0), &first), Ok(()));
        assert!(rt; turns(&mut pages, kind, 1));
        assert!(rt; turns(&mut pages, TurnKind::Next, 1));
        assert_eq!(rt;
            (pages.totals().blocks, pages.totals().exceptions),
            (blocks, exceptions)
        );
        assert_eq!(rt; line_at(&pages, 0), first);
    }
}

/// The mover goes round: it stays at a page until that is at its plan.
#[test]
fn the_mover_goes_round(rt: HostRuntime) {
    let Ok(mut pages) = store(rt.alloc(), 3, 1) else {
        panic!(rt; "no memory");
    };
    assert!(rt; shrink(&mut pages, 2));
    for (kind, cursor) in [
        (TurnKind::Next, 1),
        (TurnKind::Next, 2),
        (TurnKind::Shift, 2),
        (TurnKind::Shift, 2),
    ] {
        assert_eq!(rt; pages.mover_turn(), kind);
        assert_eq!(rt; pages.cursor(), PageNo(cursor));
    }
    assert!(rt; turns(&mut pages, TurnKind::Shift, 62));
    assert_eq!(rt; pages.mover_turn(), TurnKind::Next);
    assert_eq!(rt; pages.cursor(), PageNo(0));
}

/// Tidying makes the turns that are left, on every page, and counts them apart.
#[test]
fn tidying_makes_the_turns_that_are_left(rt: HostRuntime) {
    let Ok(mut pages) = store(rt.alloc(), 3, 2) else {
        panic!(rt; "no memory");
    };
    assert!(rt; shrink(&mut pages, 0) && shrink(&mut pages, 2));
    assert!(rt; turns(&mut pages, TurnKind::Shift, 4));
    pages.tidy();
    assert_eq!(rt;
        (pages.counts().mover_turns, pages.counts().tidy_turns),
        (4, 60 + 64)
    );
    assert_eq!(rt; pages.cursor(), PageNo(0));
    pages.tidy();
    assert_eq!(rt; pages.counts().tidy_turns, 124);
    assert!(rt; turns(&mut pages, TurnKind::Next, 3));
}

/// Lines by a number, of the classes that pages are packed by.
fn generated(number: u32) -> Line {
    match number / 65536 % 6 {
        0 | 1 => [0; 64],
        2 => repeated(),
        3 => even(),
        4 => shortened(),
        _ => plain(),
    }
}

/// Writes to four pages in one frame, with turns of the mover among them: each line is what was written last and not
/// refused.
#[test]
fn lines_stay_over_turns_and_refusals(rt: HostRuntime) {
    let Ok(mut pages) = store(rt.alloc(), 4, 1) else {
        panic!(rt; "no memory");
    };
    let mut written = [0u32; 256];
    let mut number = 7u32;
    let mut refused = false;
    for _step in 0..4000u32 {
        number = number.wrapping_mul(1664525).wrapping_add(1013904223);
        let line = number / (1 << 24);
        if put(&mut pages, line, &generated(number)) {
            written[line as usize] = number;
        } else {
            refused = true;
        }
        turns(&mut pages, TurnKind::Next, number / 4096 % 8);
    }
    for line in 0..256u32 {
        assert_eq!(rt; line_at(&pages, line), generated(written[line as usize]));
    }
    assert!(rt; refused);
}
