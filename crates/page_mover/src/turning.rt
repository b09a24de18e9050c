// Which turn a page takes next.
ghost use Rattle.std.specs.Prelude.{◌≡◌, ◌≤◌, ℕ, List, length};
ghost use Rattle.hier_types.specs.declared.settings.Codec.{Codec as AnyCodec};
ghost use Rattle.line_codec.specs.Layout.{IsTarget, cap, stored_sizes};
ghost use Rattle.page_plan.specs.KeptSizes.{kept_sizes};
ghost use Rattle.page_slots.specs.Descs.{content_of};
ghost use Rattle.page_slots.specs.Sound.{IsSound};
ghost use Rattle.page_mover.specs.Turns.{goes_down, packed_turn, slots_turn, turn_of, kind_of, IsMeasured};

use hier_types::Codec;
use page_plan::{PagePlan, PageSizes};
use page_slots::{Shape, Slots, exceptions_between};

/// The next step of a page towards the plan of its content.
#[derive(Clone, Copy, Debug, PartialEq, Eq)]
pub enum Turn {
    /// The page is at its plan.
    Next,
    /// All lines are zero: the page gives its block back.
    Zero,
    /// The page is laid anew, in the front of its block.
    Rewrite {
        /// The order of the block that it needs then.
        order: u8,
        /// The bytes of each slot.
        target: u8,
    },
    /// The next line moves to a slot of fewer bytes.
    Down {
        /// The bytes of the smaller slots.
        small: u8,
    },
    /// The next line moves to a slot of more bytes.
    Up {
        /// The bytes of the larger slots.
        large: u8,
    },
    /// Of the exceptions in some chunks the one in the lowest moves to the lowest free chunk above another.
    Hoist {
        /// The first of these chunks.
        low: u8,
        /// The first chunk behind them.
        high: u8,
        /// The chunk above which a free one is sought.
        above: u8,
    },
    /// The page gives the second half of its block back.
    Halve,
}

/// What kind of step a page takes next.
#[derive(Clone, Copy, Debug, PartialEq, Eq)]
pub enum TurnKind {
    /// None: the page is at its plan.
    Next,
    /// The page becomes one of zeros.
    Zero,
    /// The page is laid anew.
    Rewrite,
    /// One line moves to a slot of another length.
    Shift,
    /// One exception moves to another chunk.
    Hoist,
    /// The block is cut to its first half.
    Halve,
}

impl Turn {
    /// The kind of this turn.
    pub fn kind(self) -> TurnKind
        ensures { result ≡ kind_of self }
    {
        match self {
            Turn::Next => TurnKind::Next,
            Turn::Zero => TurnKind::Zero,
            Turn::Rewrite { .. } => TurnKind::Rewrite,
            Turn::Down { .. } | Turn::Up { .. } => TurnKind::Shift,
            Turn::Hoist { .. } => TurnKind::Hoist,
            Turn::Halve => TurnKind::Halve,
        }
    }
}

/// The chunks of a block of this order.
pub(crate) fn chunks_in(order: u8) -> u8
    ensures value { result ≡ cap order }
    ensures most { result ≤ 32 }
{
    match order {
        0 => 8,
        1 => 16,
        _ => 32,
    }
}

pub(crate) fn goes_down(order: u8, small: u8, large: u8, outgrown: u8, goal: u8) -> bool
    requires large_in { large ≤ 28 }
    requires few { outgrown ≤ 64 }
    ensures { result ≡ goes_down order small large outgrown goal }
{
    goal <= small && 1 + large + outgrown <= chunks_in(order)
}

/// The row of a packed page whose plan is packed.
pub(crate) fn packed_turn(
    order: u8,
    target: u8,
    plan_order: u8,
    goal: u8,
    need: u8,
    outside: u8,
    below: u8,
) -> Turn
    requires { goal ≤ 28 }
    ensures { result ≡ packed_turn order target plan_order goal need outside below }
{
    if target == goal && order == plan_order {
        Turn::Next
    } else if target == goal && outside > 0 {
        Turn::Hoist {
            low: chunks_in(plan_order),
            high: chunks_in(order),
            above: target,
        }
    } else if target == goal && plan_order < order {
        Turn::Halve
    } else if need > chunks_in(order) {
        Turn::Rewrite {
            order: plan_order,
            target: goal,
        }
    } else if target < goal && below > 0 {
        Turn::Hoist {
            low: 0,
            high: 1 + goal,
            above: goal,
        }
    } else if target < goal {
        Turn::Up { large: goal }
    } else {
        Turn::Down { small: goal }
    }
}

// The row of a page in slots whose plan is packed. A page at its plan is not looked at.
pub(crate) fn slots_turn(
    slots: Slots,
    bytes: &[u8],
    plan_order: u8,
    goal: u8,
    sizes: &PageSizes,
) -> Turn
    requires sound { (codec : AnyCodec) × IsSound codec (Shape.Slotted slots) bytes.now }
    requires goal { IsTarget goal }
    ensures { (codec : AnyCodec) → IsSound codec (Shape.Slotted slots) bytes.now
        → kept_sizes codec (content_of (Shape.Slotted slots) bytes.now) ≡ sizes.now
        → result ≡ slots_turn (stored_sizes codec (content_of (Shape.Slotted slots) bytes.now)) slots bytes.now plan_order goal }
{
    match slots {
        Slots::Packed { order, target } => {
            if target == goal && order == plan_order {
                return Turn::Next;
            }
            let least = target.min(goal);
            let need = 1 + target.max(goal) + sizes.exceptions(least);
            let outside = exceptions_between(bytes, chunks_in(plan_order), chunks_in(order));
            let below = exceptions_between(bytes, 0, 1 + goal);
            packed_turn(order, target, plan_order, goal, need, outside, below)
        }
        Slots::Mid {
            order,
            small,
            large,
            ..
        } => if goes_down(order, small, large, sizes.exceptions(small), goal) {
            Turn::Down { small }
        } else {
            Turn::Up { large }
        },
    }
}

// The plan of a page, and the sizes of its lines. It reads each line.
pub(crate) fn measured(codec: Codec, shape: Shape, bytes: &[u8]) -> (PagePlan, PageSizes)
    requires { IsSound codec shape bytes.now }
    ensures { IsMeasured codec shape bytes.now result.0 result.1 }
{
    let mut lines = [[0; 64]; 64];
    shape.gather(bytes, &mut lines);
    let sizes = PageSizes::of(codec, &lines);
    (sizes.plan(), sizes)
}

/// The next turn of a page whose content has this plan and whose lines have these sizes. A page at its plan costs the same
/// whatever it holds; any other costs a look at the metadata and the sizes, and none at the lines.
pub fn turn_by(shape: Shape, bytes: &[u8], plan: PagePlan, sizes: &PageSizes) -> Turn
    requires { (codec : AnyCodec) × IsMeasured codec shape bytes.now plan sizes.now }
    ensures { (codec : AnyCodec) → IsMeasured codec shape bytes.now plan sizes.now → result ≡ turn_of codec shape bytes.now }
{
    match (shape, plan) {
        (Shape::Zero, _) => Turn::Next,
        (_, PagePlan::Raw) => Turn::Next,
        (_, PagePlan::Zero) => Turn::Zero,
        (Shape::Raw, PagePlan::Packed { order, target, .. }) => Turn::Rewrite { order, target },
        (Shape::Slotted(slots), PagePlan::Packed { order, target, .. }) => {
            slots_turn(slots, bytes, order, target, sizes)
        }
    }
}
