// One page's block, as its plan changes or a turn is made on it.
ghost use Rattle.std.specs.Prelude.{IsTrue, ◌↔◌, ◌≡◌, ◌≤◌, ◌<◌, Some, None, IfOk, IfErr, IfSome, OnErr};
ghost use Rattle.buddy_frames.specs.Units.{IsUsedPlace};
ghost use Rattle.page_plan.specs.Sizes.{order_of};
ghost use Rattle.page_slots.specs.Descs.{block_of, shape_of};
ghost use Rattle.page_store.specs.PageBlocks.{IsAtPlan, Outgrows};
ghost use Rattle.page_store.specs.BlockChanges.{HasNoneBut, ChangesBlock, GetsBlock};
ghost use Rattle.page_slots.specs.Forms.{order_of as slots_order};
ghost use Rattle.page_store.specs.Turns.{CanTrim};

use buddy_frames::{Block, Frames};
use page_plan::PagePlan;
use page_slots::{Desc, Shape, Slots};

/// Whether a page that is kept so is at the plan.
pub(crate) fn is_at(desc: &Desc, plan: PagePlan) -> bool
    ensures { IsTrue result ↔ IsAtPlan plan desc.now }
{
    match (desc, plan) {
        (Desc::Zero, PagePlan::Zero) => true,
        (
            Desc::Packed { block, target },
            PagePlan::Packed {
                order,
                target: planned,
                ..
            },
        ) => block.order() == order && *target == planned,
        (Desc::Raw { block }, PagePlan::Raw) => block.order() == 3,
        _ => false,
    }
}

/// A page that found no block of an order, as it was kept before and is kept still.
#[derive(Drop)]
pub(crate) struct NoPlace {
    pub held: Desc,
    pub order: u8,
}

/// A block of another order for a block: its own first units where it has room, else what the frames choose.
fn reorder(frames: &mut Frames, block: Block, order: u8) -> Result<Block, Block>
    requires { IsUsedPlace frames.old block }
    ensures gets { IfOk result (λ moved. GetsBlock frames.old (Some block) order moved frames.new) }
    ensures none { OnErr result (HasNoneBut frames.old (Some block) order) }
    ensures outgrown { OnErr result (block.order < order) }
    ensures back { IfErr result (λ back. back ≡ block) }
    ensures unchanged { OnErr result (frames.new ≡ frames.old) }
{
    if order <= block.order() {
        return Ok(frames.trim(block, order));
    }
    frames.resize(block, order)
}

/// There is no place of an order for a page that is kept so.
fn no_place(held: Desc, order: u8) -> NoPlace
    ensures { result ≡ record { held = held; order = order } }
{
    NoPlace { held, order }
}

/// A block of an order for a page.
fn block_for(frames: &mut Frames, held: Desc, order: u8) -> Result<Block, NoPlace>
    requires { IfSome (block_of held) (IsUsedPlace frames.old) }
    ensures gets { IfOk result (λ moved. GetsBlock frames.old (block_of held) order moved frames.new) }
    ensures none { OnErr result (HasNoneBut frames.old (block_of held) order) }
    ensures outgrown { OnErr result (Outgrows (block_of held) order) }
    ensures back { IfErr result (λ no_place. no_place ≡ record { held = held; order = order }) }
    ensures unchanged { OnErr result (frames.new ≡ frames.old) }
{
    match held {
        Desc::Zero => match frames.take(order) {
            Some(block) => Ok(block),
            None => Err(no_place(Desc::Zero, order)),
        },
        Desc::Packed { block, target } => match reorder(frames, block, order) {
            Ok(moved) => Ok(moved),
            Err(block) => Err(no_place(Desc::Packed { block, target }, order)),
        },
        Desc::Mid {
            block,
            small,
            large,
            at,
        } => match reorder(frames, block, order) {
            Ok(moved) => Ok(moved),
            Err(block) => Err(no_place(
                Desc::Mid {
                    block,
                    small,
                    large,
                    at,
                },
                order,
            )),
        },
        Desc::Raw { block } => match reorder(frames, block, order) {
            Ok(moved) => Ok(moved),
            Err(block) => Err(no_place(Desc::Raw { block }, order)),
        },
    }
}

/// Gives a page's block back.
fn release(frames: &mut Frames, held: Desc)
    requires { IfSome (block_of held) (IsUsedPlace frames.old) }
    ensures { ChangesBlock frames.old (block_of held) None frames.new }
{
    match held {
        Desc::Zero => {}
        Desc::Packed { block, .. } => frames.give(block),
        Desc::Mid { block, .. } => frames.give(block),
        Desc::Raw { block } => frames.give(block),
    }
}

/// Brings a page to a plan. Where the plan's order has no place the page and the frames stay as they were.
pub(crate) fn settle(frames: &mut Frames, held: Desc, plan: PagePlan) -> Result<Desc, NoPlace>
    requires { IfSome (block_of held) (IsUsedPlace frames.old) }
    ensures at_plan { IfOk result (IsAtPlan plan) }
    ensures changes { IfOk result (λ desc. ChangesBlock frames.old (block_of held) (block_of desc) frames.new) }
    ensures order { IfErr result (λ no_place. order_of plan ≡ Some no_place.order) }
    ensures none { IfErr result (λ no_place. HasNoneBut frames.old (block_of held) no_place.order) }
    ensures outgrown { IfErr result (λ no_place. Outgrows (block_of held) no_place.order) }
    ensures back { IfErr result (λ no_place. no_place.held ≡ held) }
    ensures unchanged { OnErr result (frames.new ≡ frames.old) }
{
    match plan {
        PagePlan::Zero => {
            release(frames, held);
            Ok(Desc::Zero)
        }
        PagePlan::Packed { order, target, .. } => match block_for(frames, held, order) {
            Ok(block) => Ok(Desc::Packed { block, target }),
            Err(no_place) => Err(no_place),
        },
        PagePlan::Raw => match block_for(frames, held, 3) {
            Ok(block) => Ok(Desc::Raw { block }),
            Err(no_place) => Err(no_place),
        },
    }
}

/// The order of the block that a page with such slots has.
fn order_of(slots: Slots) -> u8
    ensures { result ≡ slots_order slots }
{
    match slots {
        Slots::Packed { order, .. } | Slots::Mid { order, .. } => order,
    }
}

/// Brings a page to a shape for which its block has room: the block is trimmed to it, or given back.
pub(crate) fn reshape(frames: &mut Frames, held: Desc, shape: Shape) -> Desc
    requires live { IfSome (block_of held) (IsUsedPlace frames.old) }
    requires can { CanTrim (block_of held) shape }
    ensures shape { shape_of result ≡ shape }
    ensures changes { ChangesBlock frames.old (block_of held) (block_of result) frames.new }
{
    let Shape::Slotted(slots) = shape else {
        release(frames, held);
        return Desc::Zero;
    };
    let block = block_for(frames, held, order_of(slots)).unwrap();
    // Its slots are still to be told.
    Desc::Raw { block }.with_slots(slots)
}
