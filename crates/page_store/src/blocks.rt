// The blocks of all pages.
ghost use Rattle.std.specs.Prelude.{◌≡◌, ◌≤◌, ◌<◌, ◌*◌, ◌^◌, ℕ, length, replicate, IfOk, IfErr, IfSome, IsTrue, ◌↔◌, OnOk, OnErr};
ghost use Rattle.buddy_frames.specs.Units.{place_at, IsFreeBlock, IsCount};
ghost use Rattle.page_store.specs.PageBlocks.{base_at, block_at, ComesToPlan, LacksRoom, AreSound};
ghost use Rattle.page_store.specs.Turns.{CanTrim, ComesToShape};
ghost use Rattle.page_store.specs.Rooms.{held_of};
ghost use Rattle.page_store.specs.Store.{desc_at};
ghost use Rattle.page_slots.specs.declared.desc.Desc.TheVariants as desc;

use crate::page_block::{is_at, reshape, settle};
use crate::room::Held;
use buddy_frames::Frames;
use hier_types::NoMemory;
use page_plan::PagePlan;
use page_slots::{Desc, Shape};
use std::alloc::Global;
use std::marker::Model;
use std::mem;

/// How each page is kept, and the frames that have the blocks.
#[derive(Drop)]
pub(crate) struct Blocks {
    descriptors: Vec<Desc>,
    frames: Frames,
}

impl Model for Blocks {
    ghost use Rattle.page_store.specs.PageBlocks.{HeldBlocks, AreSound};

    ghost Value = { HeldBlocks };

    ghost view = { λ b. record { descriptors = b.descriptors.items; used = b.frames } };

    ghost invariant = { λ b. AreSound b.descriptors.items b.frames };
}

/// So many pages of zeros.
fn zero_pages(alloc: Global, pages: u32) -> Result<Vec<Desc>, NoMemory>
    ensures { IfOk result (λ made. made.items ≡ replicate pages desc.Zero) }
{
    let mut made = Vec::with_capacity(alloc, pages as usize)?;
    for count in 0..pages {
        made.push(Desc::Zero)?;
    }
    Ok(made)
}

impl Blocks {
    /// So many pages of zeros, and so many frames, 1 to 65,536, of which none is in use.
    pub(crate) fn new(alloc: Global, pages: u32, frames: u32) -> Result<Blocks, NoMemory>
        requires some { 1 ≤ frames }
        requires most { frames ≤ 65536 }
        ensures fresh { IfOk result (λ blocks. blocks ≡ record { descriptors = replicate pages desc.Zero; used = replicate frames 0 }) }
        ensures sound { IfOk result (λ blocks. AreSound blocks.descriptors blocks.used) }
    {
        let descriptors = zero_pages(alloc, pages)?;
        let frames = Frames::new(alloc, frames)?;
        Ok(Blocks {
            descriptors,
            frames,
        })
    }

    /// Brings a page to a plan, where it is not there already. The error is the plan's order, where no place of it is free for the page; nothing has
    /// changed then.
    pub(crate) fn settle(&mut self, page: usize, plan: PagePlan) -> Result<(), u8>
        requires { page < length self.old.descriptors }
        ensures ok { OnOk result (ComesToPlan self.old.descriptors self.old.used page plan self.new.descriptors self.new.used) }
        ensures frames { length self.new.used ≡ length self.old.used }
        ensures sound { AreSound self.new.descriptors self.new.used }
        ensures err { IfErr result (λ order. LacksRoom self.old.descriptors self.old.used page plan order) }
        ensures unchanged { OnErr result (self.new ≡ self.old) }
    {
        if is_at(&self.descriptors[page], plan) {
            return Ok(());
        }
        let held = mem::replace(&mut self.descriptors[page], Desc::Zero);
        match settle(&mut self.frames, held, plan) {
            Ok(desc) => {
                self.descriptors[page] = desc;
                Ok(())
            }
            Err(no_place) => {
                self.descriptors[page] = no_place.held;
                Err(no_place.order)
            }
        }
    }

    /// Brings a page to a shape for which its block has room: the block is trimmed to it, or given back.
    pub(crate) fn reshape(&mut self, page: usize, shape: Shape)
        requires page_in { page < length self.old.descriptors }
        requires can { CanTrim (block_at self.old.descriptors page) shape }
        ensures comes { ComesToShape self.old.descriptors self.old.used page shape self.new.descriptors self.new.used }
        ensures frames { length self.new.used ≡ length self.old.used }
        ensures sound { AreSound self.new.descriptors self.new.used }
    {
        let held = mem::replace(&mut self.descriptors[page], Desc::Zero);
        self.descriptors[page] = reshape(&mut self.frames, held, shape);
    }

    /// How a page is kept.
    pub(crate) fn desc(&self, page: usize) -> &Desc
        requires { page < length self.now.descriptors }
        ensures { result.now ≡ desc_at self.now.descriptors page }
    {
        &self.descriptors[page]
    }

    /// The shape of a page, and where its block begins.
    pub(crate) fn held(&self, page: usize) -> Held
        requires { page < length self.now.descriptors }
        ensures { result ≡ held_of (desc_at self.now.descriptors page) }
    {
        Held::of(self.desc(page))
    }

    /// The first byte of a page's block, of 512 bytes a unit. None where it has no block.
    pub(crate) fn base(&self, page: usize) -> Option<u32>
        requires { page < length self.now.descriptors }
        ensures base { result ≡ base_at self.now.descriptors page }
        ensures most { IfSome result (λ base. base < 2 ^ 28) }
    {
        // With their count the frames tell that they are few.
        let _count = self.frames.count();
        let held = self.held(page);
        if held.shape == Shape::Zero {
            return None;
        }
        Some(512 * held.unit)
    }

    /// The number of free blocks of an order.
    pub(crate) fn free(&self, order: u8) -> u32
        ensures { IsCount (8 * length self.now.used) (λ unit. IsFreeBlock self.now.used (place_at order unit)) result }
    {
        self.frames.free(order)
    }
}
