// How one page is kept.
ghost use Rattle.std.specs.Prelude.{◌≡◌, ◌≤◌, Some};
ghost use Rattle.buddy_frames.specs.Units.{Place};
ghost use Rattle.page_slots.specs.Descs.{block_of, shape_of, size_of};
ghost use Rattle.page_slots.specs.Forms.{order_of};

use buddy_frames::Block;

/// How a page is kept, with the block that it holds.
#[derive(Debug, Drop)]
pub enum Desc {
    /// All lines are zero, and there is no block.
    Zero,
    /// The lines one after another, in a block of order 3, which is 4,096 bytes.
    Raw {
        /// The block that the page holds.
        block: Block,
    },
    /// Each line in its slot, or uncompressed in a chunk of its own.
    Packed {
        /// The block that the page holds; its order is 0 to 2.
        block: Block,
        /// The bytes of each slot: 4, 8, 12, 16, 20, 24 or 28.
        target: u8,
    },
    /// The same, on the way from slots of one length to slots of another.
    Mid {
        /// The block that the page holds; its order is 0 to 2.
        block: Block,
        /// The bytes of each slot below line `at`.
        small: u8,
        /// The bytes of each slot from line `at` on: more than `small`.
        large: u8,
        /// The first line with a slot of `large` bytes, 1 to 63.
        at: u8,
    },
}

/// How the bytes of a page are read, whatever block they stand in.
#[derive(Clone, Copy, Debug, PartialEq, Eq)]
pub enum Shape {
    /// All lines are zero, and there are no bytes.
    Zero,
    /// The lines one after another, in 4,096 bytes.
    Raw,
    /// Each line in its slot, or uncompressed in a chunk of its own.
    Slotted(Slots),
}

/// Where the slots of a page are.
#[derive(Clone, Copy, Debug, PartialEq, Eq)]
pub enum Slots {
    /// All slots have the same length.
    Packed {
        /// The order of the block, 0 to 2: the page has the bytes of `2 ^ order` units of 512.
        order: u8,
        /// The bytes of each slot: 4, 8, 12, 16, 20, 24 or 28.
        target: u8,
    },
    /// The slots below line `at` have one length already, the others have another still.
    Mid {
        /// The order of the block, 0 to 2.
        order: u8,
        /// The bytes of each slot below line `at`.
        small: u8,
        /// The bytes of each slot from line `at` on: more than `small`.
        large: u8,
        /// The first line with a slot of `large` bytes, 1 to 63.
        at: u8,
    },
}

impl Desc {
    /// How the bytes of the page's block are read.
    pub fn shape(&self) -> Shape
        ensures { result ≡ shape_of self.now }
    {
        match self {
            Desc::Zero => Shape::Zero,
            Desc::Raw { .. } => Shape::Raw,
            Desc::Packed { block, target } => Shape::Slotted(Slots::Packed {
                order: block.order(),
                target: *target,
            }),
            Desc::Mid {
                block,
                small,
                large,
                at,
            } => Shape::Slotted(Slots::Mid {
                order: block.order(),
                small: *small,
                large: *large,
                at: *at,
            }),
        }
    }

    /// The page in the same block, with its slots elsewhere. The slots have to be in a block of the order that the page
    /// holds.
    pub fn with_slots(self, slots: Slots) -> Desc
        requires { (block : Place) × ((block_of self ≡ Some block) × (block.order ≡ order_of slots)) }
        ensures shape { shape_of result ≡ Shape.Slotted slots }
        ensures block { block_of result ≡ block_of self }
    {
        match self {
            Desc::Zero => unreachable!(),
            Desc::Raw { block } | Desc::Packed { block, .. } | Desc::Mid { block, .. } => {
                in_slots(block, slots)
            }
        }
    }
}

fn in_slots(block: Block, slots: Slots) -> Desc
    requires { block.order ≡ order_of slots }
    ensures shape { shape_of result ≡ Shape.Slotted slots }
    ensures block { block_of result ≡ Some block }
{
    match slots {
        Slots::Packed { target, .. } => Desc::Packed { block, target },
        Slots::Mid {
            small,
            large,
            at,
            ..
        } => Desc::Mid {
            block,
            small,
            large,
            at,
        },
    }
}

impl Shape {
    /// The bytes of a page of this shape in its block: none, 512, 1,024, 2,048 or 4,096.
    pub fn size(self) -> usize
        ensures value { result ≡ size_of self }
        ensures most { result ≤ 4096 }
    {
        match self {
            Shape::Zero => 0,
            Shape::Raw => 4096,
            Shape::Slotted(slots) => 64 * slots.form().chunks as usize,
        }
    }
}
