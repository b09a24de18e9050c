// Where the slots of a page are.
ghost use Rattle.std.specs.Prelude.{◌≡◌, ◌<◌, ◌≤◌, ◌+◌, ◌*◌};
ghost use Rattle.line_codec.specs.Layout.{cap};
ghost use Rattle.page_slots.specs.Forms.{form_of, room, slot_start};

use crate::desc::Slots;

/// Where the slots of a page are, and how many chunks its block has. The slots of the lines below `at` have `small`
/// bytes each, the others `large`.
#[derive(Clone, Copy)]
pub(crate) struct Form {
    pub(crate) small: u8,
    pub(crate) large: u8,
    pub(crate) at: u8,
    pub(crate) chunks: u8,
}

// The chunks of a block of this order.
fn chunks_in(order: u8) -> u8
    ensures value { result ≡ cap order }
    ensures most { result ≤ 32 }
{
    match order {
        0 => 8,
        1 => 16,
        _ => 32,
    }
}

impl Slots {
    /// Where the slots are.
    pub(crate) fn form(self) -> Form
        ensures value { result ≡ form_of self }
        ensures most { result.chunks ≤ 32 }
    {
        match self {
            Slots::Packed { order, target } => Form {
                small: target,
                large: target,
                at: 0,
                chunks: chunks_in(order),
            },
            Slots::Mid {
                order,
                small,
                large,
                at,
            } => Form {
                small,
                large,
                at,
                chunks: chunks_in(order),
            },
        }
    }
}

impl Form {
    /// The bytes of the line's slot.
    #[tactic(auto, unfolding(crate::specs::Forms::room))]
    pub(crate) fn room(self, line: u8) -> usize
        ensures value { result ≡ room self line }
        ensures most { result ≤ 255 }
    {
        if line < self.at {
            self.small as usize
        } else {
            self.large as usize
        }
    }

    /// The first byte of the line's slot, counted from the block's first byte.
    #[tactic(auto, unfolding(crate::specs::Forms::slot_start))]
    pub(crate) fn slot_start(self, line: u8) -> usize
        requires { line < 64 }
        ensures value { result ≡ slot_start self line }
        ensures most { result ≤ 64 + 255 * 63 }
    {
        64 + self.room(line) * line as usize
    }
}
