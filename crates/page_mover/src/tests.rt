ghost use Rattle.std.specs.Prelude.{◌≡◌, ◌≢◌, ◌<◌, ◌≤◌, length};
ghost use Rattle.hier_types.specs.declared.settings.Codec.{Codec as AnyCodec};
ghost use Rattle.page_slots.specs.Descs.{content_of, size_of};
ghost use Rattle.page_slots.specs.Laid.{HasRoomFor};
ghost use Rattle.page_slots.specs.Sound.{IsSound};
ghost use Rattle.page_mover.specs.Moves.{body};
ghost use Rattle.page_mover.specs.Turns.{IsMeasured};

use super::*;
use crate::calls::find_turn;
use crate::distance::far_by;
use hier_types::{Codec, Line};
use page_plan::{PagePlan, PageSizes, plan};
use page_slots::{PutResult, Shape, Slots};
use sample_lines::{plain, rising};
use std::marker::Model;

mod descriptors;

/// A page in the front of bytes of its own.
#[derive(Drop)]
struct Driven {
    codec: Codec,
    shape: Shape,
    bytes: [u8; 4096],
}

impl Model for Driven {
    ghost use Rattle.page_slots.specs.declared.desc.Shape.{Shape};
    ghost use Rattle.page_slots.specs.Sound.{IsSound};
    ghost use Rattle.page_mover.specs.Moves.{body};

    ghost Value = { Shape };

    ghost view = { λ p. p.shape };

    ghost invariant = { λ p. IsSound p.codec p.shape (body p.shape p.bytes) };
}

/// The shape of a page of these lines at its plan.
fn shape_for(codec: Codec, lines: &[Line; 64]) -> Shape
    ensures { HasRoomFor codec result lines.now (size_of result) }
{
    match plan(codec, lines) {
        PagePlan::Zero => Shape::Zero,
        PagePlan::Packed { order, target, .. } => packed(order, target),
        PagePlan::Raw => Shape::Raw,
    }
}

fn packed(order: u8, target: u8) -> Shape
    ensures { result ≡ Shape.Slotted (Slots.Packed order target) }
{
    Shape::Slotted(Slots::Packed { order, target })
}

fn lay_in_front(codec: Codec, shape: Shape, lines: &[Line; 64], bytes: &mut [u8], size: usize)
    requires is_size { size ≡ size_of shape }
    requires size_in { size ≤ length bytes.old }
    requires room { HasRoomFor codec shape lines.now size }
    ensures { IsSound codec shape (body shape bytes.new) }
{
    shape.lay(codec, lines, &mut bytes[..size]);
}

fn put_in_front(
    codec: Codec,
    shape: Shape,
    bytes: &mut [u8],
    size: usize,
    line: u8,
    from: &Line,
) -> PutResult
    requires is_size { size ≡ size_of shape }
    requires size_in { size ≤ length bytes.old }
    requires not_zero { shape ≢ Shape.Zero }
    requires sound { IsSound codec shape (body shape bytes.old) }
    requires line_in { line < 64 }
    ensures { IsSound codec shape (body shape bytes.new) }
{
    shape.put(codec, &mut bytes[..size], line, from)
}

fn turn_in_front(codec: Codec, shape: Shape, bytes: &mut [u8], size: usize) -> (TurnKind, Shape)
    requires is_size { size ≡ size_of shape }
    requires size_in { size ≤ length bytes.old }
    requires sound { IsSound codec shape (body shape bytes.old) }
    ensures { IsSound codec result.1 (body result.1 bytes.new) }
{
    let front = &mut bytes[..size];
    let turn = find_turn(codec, shape, front);
    (turn.kind(), make_turn(codec, shape, turn, front))
}

fn gather_front(shape: Shape, bytes: &[u8], size: usize) -> [Line; 64]
    requires is_size { size ≡ size_of shape }
    requires size_in { size ≤ length bytes.now }
    requires sound { (codec : AnyCodec) × IsSound codec shape (body shape bytes.now) }
    ensures { result ≡ content_of shape (body shape bytes.now) }
{
    let mut lines = [[0; 64]; 64];
    shape.gather(&bytes[..size], &mut lines);
    lines
}

/// The turn of a page whose plan and sizes are known already.
fn measured_turn(
    codec: Codec,
    shape: Shape,
    bytes: &mut [u8],
    size: usize,
    plan: PagePlan,
    sizes: &PageSizes,
) -> (TurnKind, Shape)
    requires is_size { size ≡ size_of shape }
    requires size_in { size ≤ length bytes.old }
    requires measured { IsMeasured codec shape (body shape bytes.old) plan sizes.now }
    ensures { IsMeasured codec result.1 (body result.1 bytes.new) plan sizes.now }
{
    let front = &mut bytes[..size];
    let turn = turn_by(shape, front, plan, sizes);
    (turn.kind(), make_turn(codec, shape, turn, front))
}

fn measured_far(shape: Shape, bytes: &[u8], size: usize, plan: PagePlan, sizes: &PageSizes) -> u8
    requires is_size { size ≡ size_of shape }
    requires size_in { size ≤ length bytes.now }
    requires measured { (codec : AnyCodec) × IsMeasured codec shape (body shape bytes.now) plan sizes.now }
{
    far_by(shape, &bytes[..size], plan, sizes)
}

/// Makes turns until the page is at its plan, and answers how many. Else how far the page was before and after a turn that
/// brought it no nearer.
fn settle(
    codec: Codec,
    first: Shape,
    bytes: &mut [u8; 4096],
    plan: PagePlan,
    sizes: &PageSizes,
) -> Result<u32, (u8, u8)>
    requires { IsMeasured codec first (body first bytes.old) plan sizes.now }
{
    let mut shape = first;
    let mut far = measured_far(shape, bytes, shape.size(), plan, sizes);
    for turns in 0..184u32 {
        let (kind, next) = measured_turn(codec, shape, bytes, shape.size(), plan, sizes);
        if kind == TurnKind::Next {
            return Ok(turns);
        }
        let now = measured_far(next, bytes, next.size(), plan, sizes);
        if now >= far {
            return Err((far, now));
        }
        shape = next;
        far = now;
    }
    Err((far, far))
}

/// Makes so many turns, and answers how many of them moved a line.
fn shifts(
    codec: Codec,
    first: Shape,
    bytes: &mut [u8; 4096],
    plan: PagePlan,
    sizes: &PageSizes,
    turns: u32,
) -> u32
    requires { IsMeasured codec first (body first bytes.old) plan sizes.now }
{
    let mut shape = first;
    let mut count = 0u32;
    for _turn in 0..turns {
        let (kind, next) = measured_turn(codec, shape, bytes, shape.size(), plan, sizes);
        if kind == TurnKind::Shift {
            count = count.saturating_add(1);
        }
        shape = next;
    }
    count
}

impl Driven {
    /// A page of these lines at its plan.
    fn new(codec: Codec, lines: &[Line; 64]) -> Driven {
        let shape = shape_for(codec, lines);
        let mut bytes = [0; 4096];
        lay_in_front(codec, shape, lines, &mut bytes, shape.size());
        Driven {
            codec,
            shape,
            bytes,
        }
    }

    /// Puts a line where the page has a place for it.
    fn put(&mut self, line: u8, from: &Line) -> bool
        requires { line < 64 }
    {
        if self.shape == Shape::Zero {
            return false;
        }
        put_in_front(
            self.codec,
            self.shape,
            &mut self.bytes,
            self.shape.size(),
            line,
            from,
        ) == PutResult::Done
    }

    /// Makes the next turn.
    fn turn(&mut self) -> TurnKind {
        let (kind, shape) = turn_in_front(
            self.codec,
            self.shape,
            &mut self.bytes,
            self.shape.size(),
        );
        self.shape = shape;
        kind
    }

    /// Brings the page to its plan.
    fn settle(self) -> Result<u32, (u8, u8)> {
        let Driven {
            codec,
            shape,
            mut bytes,
        } = self;
        let lines = gather_front(shape, &bytes, shape.size());
        let sizes = PageSizes::of(codec, &lines);
        settle(codec, shape, &mut bytes, sizes.plan(), &sizes)
    }

    /// Makes so many turns, and answers how many of them moved a line.
    fn shifts(self, turns: u32) -> u32 {
        let Driven {
            codec,
            shape,
            mut bytes,
        } = self;
        let lines = gather_front(shape, &bytes, shape.size());
        let sizes = PageSizes::of(codec, &lines);
        shifts(codec, shape, &mut bytes, sizes.plan(), &sizes, turns)
    }
}

/// A line of one of six sizes: 2, 9, 18, 23, 26 and 64 bytes under base-delta-immediate.
fn line_of(number: u32) -> Line {
    match number % 6 {
        0 => [0; 64],
        1 => rising(number | 0x0100_0000, 0),
        2 => even(),
        3 => rising(number | 0x0001_0000, 4),
        4 => {
            let mut line = rising(0x1000, 0);
            line[56] = 0x80;
            line
        }
        _ => plain(),
    }
}

/// Mostly lines of one size, and now and then one of another.
fn generated(number: u32, class: u32) -> Line {
    if number / 4096 % 8 == 0 {
        line_of(number / 65536)
    } else {
        line_of(class)
    }
}

/// Words of 00001000, but for one that is 0000107f.
fn even() -> Line {
    let mut line = rising(0x1000, 0);
    line[56] = 0x7f;
    line
}

/// The value 1122334455667788 eight times.
fn repeated() -> Line {
    let mut line = [0; 64];
    for index in 0..64usize {
        line[index] = 0x88 - 0x11 * (index as u8 % 8);
    }
    line
}

/// A page of lines that become shorter, with two long ones again on the way.
#[test]
fn lines_move_down_and_back_up(rt: HostRuntime) {
    let long = rising(0x0001_0000, 4);
    let mut page = Driven::new(Codec::Bdi, &[long; 64]);
    assert_eq!(rt; page.shape, packed(2, 24));
    for line in 0..64u8 {
        assert!(rt; page.put(line, &even()));
    }
    for _ in 0..20u8 {
        assert_eq!(rt; page.turn(), TurnKind::Shift);
    }
    let half = Slots::Mid {
        order: 2,
        small: 20,
        large: 24,
        at: 20,
    };
    assert_eq!(rt; page.shape, Shape::Slotted(half));
    assert!(rt; page.put(5, &long));
    assert!(rt; page.put(40, &long));
    assert_eq!(rt; (page.bytes[5], page.bytes[40]), (128 + 25, 0));
    for _ in 0..20u8 {
        assert_eq!(rt; page.turn(), TurnKind::Shift);
    }
    assert_eq!(rt; (page.shape, page.bytes[5]), (packed(2, 24), 0));
    assert_eq!(rt; page.turn(), TurnKind::Next);
}

/// Twelve exceptions that become shorter: eight make room for wider slots, all lines move there, and half of the block is
/// given back.
#[test]
fn exceptions_make_room_for_wider_slots(rt: HostRuntime) {
    let mut lines = [[0; 64]; 64];
    for index in 0..12usize {
        lines[index] = plain();
    }
    let mut page = Driven::new(Codec::Bdi, &lines);
    assert_eq!(rt; page.shape, packed(2, 4));
    assert_eq!(rt; (page.bytes[0], page.bytes[11]), (128 + 5, 128 + 16));
    for line in 0..12u8 {
        assert!(rt; page.put(line, &repeated()));
    }
    for (kind, count) in [
        (TurnKind::Hoist, 8),
        (TurnKind::Shift, 64),
        (TurnKind::Halve, 1),
        (TurnKind::Next, 1),
    ] {
        for _ in 0..count {
            assert_eq!(rt; page.turn(), kind);
        }
    }
    assert_eq!(rt; page.shape, packed(1, 12));
}

/// A page whose lines stand one after another, until they become zero: all of them, or all but one.
#[test]
fn raw_pages_are_laid_anew_or_given_back(rt: HostRuntime) {
    for (first, kind, shape) in [
        (0, TurnKind::Zero, Shape::Zero),
        (1, TurnKind::Rewrite, packed(0, 4)),
    ] {
        let mut page = Driven::new(Codec::Bdi, &[plain(); 64]);
        assert_eq!(rt; page.shape, Shape::Raw);
        for line in first..64u8 {
            assert!(rt; page.put(line, &[0; 64]));
        }
        assert_eq!(rt; page.turn(), kind);
        assert_eq!(rt; page.shape, shape);
        assert_eq!(rt; page.turn(), TurnKind::Next);
    }
}

/// Pages of generated lines that become others, where there is room, come nearer to their plans with each turn.
#[test]
fn generated_pages_come_to_their_plans(rt: HostRuntime) {
    let mut number = 7u32;
    let mut longest = 0;
    for round in 0..1000u32 {
        let mut lines = [[0; 64]; 64];
        for line in 0..64usize {
            number = number.wrapping_mul(1664525).wrapping_add(1013904223);
            lines[line] = generated(number, round);
        }
        let mut page = Driven::new(Codec::Bdi, &lines);
        for line in 0..64u8 {
            number = number.wrapping_mul(1664525).wrapping_add(1013904223);
            page.put(line, &generated(number, round / 6));
        }
        match page.settle() {
            Ok(turns) => longest = turns.max(longest),
            Err((before, after)) => panic!(rt; "far {before}, then {after}"),
        }
    }
    assert!(rt; longest > 64);
}

// `bench/turns.sh` times these: they make 2^20 turns at the plan, and the shifts of 65,536 lines.

#[test]
fn turns_at_the_plan_of_a_light_page(rt: HostRuntime) {
    let mut lines = [[0; 64]; 64];
    lines[63] = even();
    let page = Driven::new(Codec::Bdi, &lines);
    assert_eq!(rt; page.shifts(1 << 20), 0);
}

#[test]
fn turns_at_the_plan_of_a_full_page(rt: HostRuntime) {
    let page = Driven::new(Codec::Bdi, &[rising(0x0001_0000, 4); 64]);
    assert_eq!(rt; page.shifts(1 << 20), 0);
}

/// A page of long lines that have become shorter.
fn shortened() -> Driven {
    let mut page = Driven::new(Codec::Bdi, &[rising(0x0001_0000, 4); 64]);
    let line = even();
    for index in 0..64u8 {
        page.put(index, &line);
    }
    page
}

#[test]
fn pages_before_their_shifts(rt: HostRuntime) {
    for _page in 0..1024u32 {
        assert_eq!(rt; shortened().shifts(0), 0);
    }
}

#[test]
fn pages_with_their_shifts(rt: HostRuntime) {
    for _page in 0..1024u32 {
        assert_eq!(rt; shortened().shifts(64), 64);
    }
}
