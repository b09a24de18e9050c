// Where the free blocks of one order are, and how many there are.
ghost use Rattle.std.specs.Prelude.{◌≡◌, ◌<◌, ◌≤◌, ◌+◌, ◌==◌, ℕ, not, IfOk};
ghost use Rattle.buddy_frames.specs.FrameByte.{blocks_of};
ghost use Rattle.number_set.specs.Numbers.{has, Puts, HasBelow};

use crate::frame_byte::block_starts;
use number_set::NumberSet;
use std::alloc::{AllocError, Global};

/// The frames that have a free block of an order, and the number of these blocks.
#[derive(Debug, Drop)]
pub(crate) struct FreeIndex {
    pub(crate) frames: NumberSet,
    pub(crate) count: u32,
}

impl FreeIndex {
    /// The index of an order that no frame has a free block of.
    pub(crate) fn empty(alloc: Global) -> Result<FreeIndex, AllocError>
        ensures count { IfOk result (λ index. index.count ≡ 0) }
        ensures frames { IfOk result (λ index. (n : ℕ) → has index.frames n ≡ 0) }
    {
        let frames = NumberSet::new(alloc)?;
        Ok(FreeIndex { frames, count: 0 })
    }

    /// The index of an order that each of so many frames has one free block of.
    pub(crate) fn full(alloc: Global, count: u32) -> Result<FreeIndex, AllocError>
        requires { count ≤ 65536 }
        ensures count { IfOk result (λ index. index.count ≡ count) }
        ensures frames { IfOk result (λ index. HasBelow index.frames count) }
    {
        let mut frames = NumberSet::new(alloc)?;
        for frame in 0..count {
            frames.put(frame, true);
        }
        Ok(FreeIndex { frames, count })
    }

    /// Brings the index of an order up to date where one frame's byte becomes another.
    pub(crate) fn update(&mut self, order: u8, frame: u32, before: u8, after: u8)
        requires known { order ≤ 3 }
        requires within { frame < 65536 }
        requires counted { blocks_of order before ≤ self.old.count }
        requires most { self.old.count ≤ 524288 }
        ensures frames { Puts self.old.frames frame (not (blocks_of order after == 0)) self.new.frames }
        ensures count { self.new.count + blocks_of order before ≡ self.old.count + blocks_of order after }
    {
        let gone = block_starts(before, order).count_ones();
        let come = block_starts(after, order).count_ones();
        self.frames.put(frame, come != 0);
        self.count = self.count - gone + come;
    }
}
