// The allocator.
ghost use Rattle.std.specs.Prelude.{◌≡◌, ◌<◌, ◌≤◌, ◌*◌, ℕ, length, replicate, slice_set, IfOk, IfErr, IfSome, IfNone, OnErr, MatchOption, MatchResult};
ghost use Rattle.buddy_frames.specs.Units.{place_at, in_use, IsFreePlace, IsUsedPlace, IsFreeBlock, IsChoice, HasNone, SetsUnits, taken, given, Takes, IsApart, StaysApart, KeepsUsed, KeepsOthers, IsCount};
ghost use Rattle.buddy_frames.specs.Indexes.{HasNoFrame, HasNoBlock, IsFirstFrame, IsLowestBlock, IsIndexed};

use crate::block::Block;
use crate::frame_byte::{block_starts, run_bits_at};
use crate::free_index::FreeIndex;
use hier_types::NoMemory;
use std::alloc::Global;
use std::marker::Model;

/// Frames of eight units of 512 bytes, some of them in use. No call scans the frames: an index for each order finds the
/// lowest frame that has a free block of it in a few words. At 65,536 frames this is about 100 KiB.
#[derive(Debug, Drop)]
pub struct Frames {
    bytes: Vec<u8>,
    singles: FreeIndex,
    pairs: FreeIndex,
    fours: FreeIndex,
    wholes: FreeIndex,
}

impl Model for Frames {
    ghost use Rattle.std.specs.Prelude.{ℕ, List};
    ghost use Rattle.buddy_frames.specs.Kept.{IsKept};

    ghost Value = { List ℕ };

    ghost view = { λ a. a.bytes.items };

    ghost invariant = { λ a. IsKept a.bytes.items a.singles a.pairs a.fours a.wholes };
}

impl Frames {
    /// So many frames, 1 to 65,536, with no unit in use.
    pub fn new(alloc: Global, frames: u32) -> Result<Frames, NoMemory>
        requires some { 1 ≤ frames }
        requires most { frames ≤ 65536 }
        ensures frames { IfOk result (λ made. made ≡ replicate frames 0) }
        ensures free { IfOk result (λ made. (unit : ℕ) → in_use made unit ≡ 0) }
    {
        let bytes = vec![in alloc; 0u8; frames as usize]?;
        let singles = FreeIndex::empty(alloc)?;
        let pairs = FreeIndex::empty(alloc)?;
        let fours = FreeIndex::empty(alloc)?;
        let wholes = FreeIndex::full(alloc, frames)?;
        Ok(Frames {
            bytes,
            singles,
            pairs,
            fours,
            wholes,
        })
    }

    /// Takes the first units of a free block: of the least order that is at least `order`, and there of the lowest. None
    /// exactly where no place of the order is wholly free. The units of the block stay in use until it is given back.
    pub fn take(&mut self, order: u8) -> Option<Block>
        ensures some { IfSome result (λ block. Takes self.old order block self.new) }
        ensures live { IfSome result (IsUsedPlace self.new) }
        ensures keeps { KeepsUsed self.old self.new }
        ensures apart { IfSome result (IsApart self.old) }

        ensures none { IfNone result (HasNone self.old order) }
        ensures unchanged { IfNone result (self.new ≡ self.old) }
    {
        let Some(unit) = self.choose(order) else {
            return None;
        };
        let chosen = Block::at(order, unit);
        self.mark(&chosen);
        Some(chosen)
    }

    /// Frees the units of a live block. It never refuses.
    pub fn give(&mut self, block: Block)
        requires { IsUsedPlace self.old block }
        ensures after { self.new ≡ given self.old block }
        ensures units { SetsUnits self.old block 0 self.new }
        ensures keeps { KeepsOthers self.old block self.new }
    {
        self.clear(&block);
    }

    /// Changes a live block for one of another order, which is chosen as `take` chooses, with the block's own units
    /// counted as free. Where that finds none the same block comes back, and nothing has changed.
    pub fn resize(&mut self, block: Block, order: u8) -> Result<Block, Block>
        requires { IsUsedPlace self.old block }
        ensures freed { SetsUnits self.old block 0 (given self.old block) }
        ensures ok { IfOk result (λ moved. Takes (given self.old block) order moved self.new) }
        ensures live { MatchResult result (IsUsedPlace self.new) (IsUsedPlace self.new) }
        ensures keeps { KeepsOthers self.old block self.new }
        ensures apart { IfOk result (StaysApart self.old block) }

        ensures same { IfErr result (λ back. back ≡ block) }
        ensures none { OnErr result (HasNone (given self.old block) order) }
        ensures unchanged { OnErr result (self.new ≡ self.old) }
    {
        self.clear(&block);
        let Some(first) = self.choose(order) else {
            self.mark(&block);
            return Err(block);
        };
        let moved = Block::at(order, first);
        self.mark(&moved);
        Ok(moved)
    }

    /// Keeps the first units of a live block, as many as the order has, and frees the others. It never refuses.
    pub fn trim(&mut self, block: Block, order: u8) -> Block
        requires live { IsUsedPlace self.old block }
        requires smaller { order ≤ block.order }
        ensures first { result ≡ place_at order block.unit }
        ensures freed { SetsUnits self.old block 0 (given self.old block) }
        ensures after { self.new ≡ taken (given self.old block) result }
        ensures units { SetsUnits (given self.old block) result 1 self.new }
        ensures live { IsUsedPlace self.new result }
        ensures keeps { KeepsOthers self.old block self.new }
        ensures apart { StaysApart self.old block result }
    {
        self.clear(&block);
        let kept = Block::at(order, block.unit());
        self.mark(&kept);
        kept
    }

    /// How many frames there are, 1 to 65,536.
    pub fn count(&self) -> u32
        ensures count { result ≡ length self.now }
        ensures most { result ≤ 65536 }
    {
        self.bytes.len() as u32
    }

    /// The number of free blocks of an order, which is kept and not summed. It is 0 for an order above 3.
    pub fn free(&self, order: u8) -> u32
        ensures { IsCount (8 * length self.now) (λ unit. IsFreeBlock self.now (place_at order unit)) result }
    {
        if order > 3 {
            return 0;
        }
        let index = self.index(order);
        index.count
    }

    /// The index of an order.
    fn index(&self, order: u8) -> &FreeIndex
        requires { order ≤ 3 }
        ensures indexed { IsIndexed self.now order result.now.frames result.now.count }
        ensures most { length self.now ≤ 65536 }
    {
        match order {
            0 => &self.singles,
            1 => &self.pairs,
            2 => &self.fours,
            _ => &self.wholes,
        }
    }

    /// The first frame that has a free block of an order.
    fn first_frame(&self, order: u8) -> Option<u32>
        requires { order ≤ 3 }
        ensures { MatchOption result (HasNoFrame self.now order) (IsFirstFrame self.now order) }
    {
        let index = self.index(order);
        index.frames.first()
    }

    /// The first unit of the lowest free block of an order.
    fn lowest_block(&self, order: u8) -> Option<u32>
        requires { order ≤ 3 }
        ensures { MatchOption result (HasNoBlock self.now order) (IsLowestBlock self.now order) }
    {
        let Some(frame) = self.first_frame(order) else {
            return None;
        };
        let bits = block_starts(self.bytes[frame as usize], order);
        Some(frame * 8 + bits.trailing_zeros())
    }

    /// The first unit of the free block to take for an order.
    fn choose(&self, order: u8) -> Option<u32>
        ensures { MatchOption result (HasNone self.now order) (λ unit. IsChoice self.now order (place_at order unit)) }
    {
        for k in order..4 {
            if let Some(unit) = self.lowest_block(k) {
                return Some(unit);
            }
        }
        None
    }

    /// Changes one frame's byte, and the indexes with it.
    fn set_byte(&mut self, frame: u32, byte: u8)
        requires { frame < length self.old }
        ensures { self.new ≡ slice_set self.old frame byte }
    {
        let before = self.bytes[frame as usize];
        self.bytes[frame as usize] = byte;
        self.singles.update(0, frame, before, byte);
        self.pairs.update(1, frame, before, byte);
        self.fours.update(2, frame, before, byte);
        self.wholes.update(3, frame, before, byte);
    }

    /// Brings the units of a free place into use.
    fn mark(&mut self, block: &Block)
        requires { IsFreePlace self.old block.now }
        ensures after { self.new ≡ taken self.old block.now }
        ensures units { SetsUnits self.old block.now 1 self.new }
    {
        let unit = block.unit();
        let frame = unit / 8;
        let byte = self.bytes[frame as usize] + run_bits_at(block.order(), unit % 8);
        self.set_byte(frame, byte);
    }

    /// Frees the units of a used place. Marking it again would undo that.
    fn clear(&mut self, block: &Block)
        requires { IsUsedPlace self.old block.now }
        ensures after { self.new ≡ given self.old block.now }
        ensures units { SetsUnits self.old block.now 0 self.new }
        ensures back { taken self.new block.now ≡ self.old }
    {
        let unit = block.unit();
        let frame = unit / 8;
        let byte = self.bytes[frame as usize] - run_bits_at(block.order(), unit % 8);
        self.set_byte(frame, byte);
    }
}
