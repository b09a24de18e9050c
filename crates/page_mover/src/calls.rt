// The turns of a page by its descriptor and bytes alone.
ghost use Rattle.std.specs.Prelude.{◌≡◌, ◌≢◌, ◌↔◌, ◌<◌, ◌≤◌, ℕ, List, true, length};
ghost use Rattle.page_plan.specs.PagePlan.{plan_of};
ghost use Rattle.page_slots.specs.Descs.{block_of, content_of, shape_of};
ghost use Rattle.page_slots.specs.Sound.{IsSound};
ghost use Rattle.page_mover.specs.Far.{far_of, is_at_plan};
ghost use Rattle.page_mover.specs.Moves.{FitsBlock, MakesTurn};
ghost use Rattle.page_mover.specs.Turns.{kind_of, turn_of};

use crate::making::make_turn;
use crate::turning::{Turn, TurnKind, measured, turn_by};
use hier_types::Codec;
use page_slots::{Desc, Shape};

// The next turn of a page. It plans the page.
pub(crate) fn find_turn(codec: Codec, shape: Shape, bytes: &[u8]) -> Turn
    requires { IsSound codec shape bytes.now }
    ensures { result ≡ turn_of codec shape bytes.now }
{
    let (plan, sizes) = measured(codec, shape, bytes);
    turn_by(shape, bytes, plan, &sizes)
}

/// The kind of the page's next turn. `bytes` are those of the page's block, and none where the page is zero. It plans the
/// page.
pub fn turn(codec: Codec, desc: &Desc, bytes: &[u8]) -> TurnKind
    requires { IsSound codec (shape_of desc.now) bytes.now }
    ensures value { result ≡ kind_of (turn_of codec (shape_of desc.now) bytes.now) }
    ensures next { result ≡ TurnKind.Next ↔ (far_of codec (shape_of desc.now) bytes.now ≡ 0) }
    ensures at_plan { result ≡ TurnKind.Next
        ↔ (is_at_plan (shape_of desc.now) (plan_of codec (content_of (shape_of desc.now) bytes.now)) ≡ true) }
    ensures most { far_of codec (shape_of desc.now) bytes.now ≤ 183 }
    ensures fits { FitsBlock (shape_of desc.now) (plan_of codec (content_of (shape_of desc.now) bytes.now)) }
{
    find_turn(codec, desc.shape(), bytes).kind()
}

/// Moves the next line of a page to a slot of another length, where that is the page's next turn, and answers its
/// descriptor after that. The block is the same, and so are the lines.
pub fn shift(codec: Codec, desc: Desc, bytes: &mut [u8]) -> Desc
    requires sound { IsSound codec (shape_of desc) bytes.old }
    requires told { kind_of (turn_of codec (shape_of desc) bytes.old) ≡ TurnKind.Shift }
    ensures makes { MakesTurn codec (shape_of desc) bytes.old (turn_of codec (shape_of desc) bytes.old) (shape_of result) bytes.new }
    ensures block { block_of result ≡ block_of desc }
    ensures sound { IsSound codec (shape_of result) bytes.new }
    ensures content { content_of (shape_of result) bytes.new ≡ content_of (shape_of desc) bytes.old }
    ensures falls { far_of codec (shape_of result) bytes.new < far_of codec (shape_of desc) bytes.old }
{
    let shape = desc.shape();
    let turn = find_turn(codec, shape, bytes);
    match make_turn(codec, shape, turn, bytes) {
        Shape::Slotted(slots) => desc.with_slots(slots),
        _ => unreachable!(),
    }
}

/// Moves one exception of a page to another chunk, where that is the page's next turn. The lines stay.
pub fn hoist(codec: Codec, desc: &Desc, bytes: &mut [u8])
    requires sound { IsSound codec (shape_of desc.now) bytes.old }
    requires told { kind_of (turn_of codec (shape_of desc.now) bytes.old) ≡ TurnKind.Hoist }
    ensures makes { MakesTurn codec (shape_of desc.now) bytes.old (turn_of codec (shape_of desc.now) bytes.old) (shape_of desc.now) bytes.new }
    ensures sound { IsSound codec (shape_of desc.now) bytes.new }
    ensures content { content_of (shape_of desc.now) bytes.new ≡ content_of (shape_of desc.now) bytes.old }
    ensures falls { far_of codec (shape_of desc.now) bytes.new < far_of codec (shape_of desc.now) bytes.old }
{
    let shape = desc.shape();
    let turn = find_turn(codec, shape, bytes);
    make_turn(codec, shape, turn, bytes);
}
