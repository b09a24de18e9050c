// What a caller holds of the frames.
ghost use Rattle.std.specs.Prelude.{◌≡◌};

use std::marker::Model;

/// A run of `2 ^ order` units of 512 bytes that a caller holds, aligned to its length. It can't be copied. Where it is
/// dropped and not given back, its units stay in use. It is live in frames where it lies within them and each of its
/// units is in use.
#[derive(Debug, Drop)]
pub struct Block {
    order: u8,
    unit: u32,
}

impl Model for Block {
    ghost use Rattle.buddy_frames.specs.Units.{Place};

    ghost Value = { Place };

    ghost view = { λ block. record { order = block.order; unit = block.unit } };
}

impl Block {
    ghost use Rattle.buddy_frames.specs.Units.{place_at};

    /// The block of an order that begins at a unit.
    pub(crate) fn at(order: u8, unit: u32) -> Block
        ensures { result ≡ place_at order unit }
    {
        Block { order, unit }
    }

    /// The order, 0 to 3: the block has `2 ^ order` units of 512 bytes.
    pub fn order(&self) -> u8
        ensures { result ≡ self.now.order }
    {
        self.order
    }

    /// The number of the first unit, of 512 bytes, counted from the first frame's first unit.
    pub fn unit(&self) -> u32
        ensures { result ≡ self.now.unit }
    {
        self.unit
    }
}
