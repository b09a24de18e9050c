// How far a page is from its plan.
ghost use Rattle.std.specs.Prelude.{◌≡◌, ◌↔◌, ◌≤◌, ℕ, List, true, length};
ghost use Rattle.hier_types.specs.declared.settings.Codec.{Codec as AnyCodec};
ghost use Rattle.line_codec.specs.Layout.{IsTarget, stored_sizes};
ghost use Rattle.page_plan.specs.KeptSizes.{kept_sizes};
ghost use Rattle.page_plan.specs.PagePlan.{plan_of};
ghost use Rattle.page_slots.specs.Descs.{content_of, shape_of};
ghost use Rattle.page_slots.specs.Sound.{IsSound};
ghost use Rattle.page_mover.specs.Far.{is_at_plan, packed_far, rest, slots_far, far_of};
ghost use Rattle.page_mover.specs.Turns.{IsMeasured, is_rewrite};

use crate::turning::{Turn, chunks_in, goes_down, measured, slots_turn};
use hier_types::Codec;
use page_plan::{PagePlan, PageSizes};
use page_slots::{Desc, Shape, Slots, exceptions_between};

fn is_rewrite(turn: Turn) -> bool
    ensures { result ≡ is_rewrite turn }
{
    matches!(turn, Turn::Rewrite { .. })
}

fn packed_far(
    order: u8,
    target: u8,
    plan_order: u8,
    goal: u8,
    turn: Turn,
    outside: u8,
    below: u8,
) -> u8
    requires order_in { order ≤ 2 }
    requires outside_in { outside ≤ 64 }
    requires below_in { below ≤ 64 }
    ensures { result ≡ packed_far order target plan_order goal turn outside below }
{
    if target == goal && order == plan_order {
        0
    } else if is_rewrite(turn) {
        1
    } else if target == goal {
        outside + order.saturating_sub(plan_order)
    } else if goal < target {
        93
    } else {
        93 + below
    }
}

// What is left where all lines have moved to slots of that length.
fn rest(goal: u8, target: u8) -> u8
    ensures value { result ≡ rest goal target }
    ensures most { result ≤ 120 }
{
    if goal == target { 29 } else { 120 }
}

fn slots_far(slots: Slots, bytes: &[u8], plan_order: u8, goal: u8, sizes: &PageSizes) -> u8
    requires sound { (codec : AnyCodec) × IsSound codec (Shape.Slotted slots) bytes.now }
    requires goal { IsTarget goal }
    ensures { (codec : AnyCodec) → IsSound codec (Shape.Slotted slots) bytes.now
        → kept_sizes codec (content_of (Shape.Slotted slots) bytes.now) ≡ sizes.now
        → result ≡ slots_far (stored_sizes codec (content_of (Shape.Slotted slots) bytes.now)) slots bytes.now plan_order goal }
{
    match slots {
        Slots::Packed { order, target } => {
            let turn = slots_turn(slots, bytes, plan_order, goal, sizes);
            let outside = exceptions_between(bytes, chunks_in(plan_order), chunks_in(order));
            let below = exceptions_between(bytes, 0, 1 + goal);
            packed_far(order, target, plan_order, goal, turn, outside, below)
        }
        Slots::Mid {
            order,
            small,
            large,
            at,
        } => if goes_down(order, small, large, sizes.exceptions(small), goal) {
            64 - at + rest(goal, small)
        } else {
            at + rest(goal, large)
        },
    }
}

// The same for a page whose content has this plan and whose lines have these sizes.
pub(crate) fn far_by(shape: Shape, bytes: &[u8], plan: PagePlan, sizes: &PageSizes) -> u8
    requires { (codec : AnyCodec) × IsMeasured codec shape bytes.now plan sizes.now }
    ensures { (codec : AnyCodec) → IsMeasured codec shape bytes.now plan sizes.now → result ≡ far_of codec shape bytes.now }
{
    match (shape, plan) {
        (Shape::Zero, _) => 0,
        (_, PagePlan::Raw) => 0,
        (_, PagePlan::Zero) => 1,
        (Shape::Raw, PagePlan::Packed { .. }) => 1,
        (Shape::Slotted(slots), PagePlan::Packed { order, target, .. }) => {
            slots_far(slots, bytes, order, target, sizes)
        }
    }
}

// How far a page of this shape is from the plan of its content. It plans the page.
fn distance(codec: Codec, shape: Shape, bytes: &[u8]) -> u8
    requires { IsSound codec shape bytes.now }
    ensures { result ≡ far_of codec shape bytes.now }
{
    let (plan, sizes) = measured(codec, shape, bytes);
    far_by(shape, bytes, plan, &sizes)
}

/// How far a page is from the plan of its content: 0 exactly at the plan, at most 183, and lower after each turn that is
/// not Next. `bytes` are those of the page's block, and none where the page is zero. It plans the page.
pub fn far(codec: Codec, desc: &Desc, bytes: &[u8]) -> u8
    requires { IsSound codec (shape_of desc.now) bytes.now }
    ensures value { result ≡ far_of codec (shape_of desc.now) bytes.now }
    ensures at_plan { (result ≡ 0)
        ↔ (is_at_plan (shape_of desc.now) (plan_of codec (content_of (shape_of desc.now) bytes.now)) ≡ true) }
    ensures most { result ≤ 183 }
{
    distance(codec, desc.shape(), bytes)
}
