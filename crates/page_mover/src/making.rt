// A turn that is made.
ghost use Rattle.std.specs.Prelude.{◌≡◌, ◌≢◌, ◌<◌, ◌≤◌, ◌*◌, ℕ, List, length};
ghost use Rattle.line_codec.specs.Layout.{IsTarget, cap, stored_sizes, chunks_of};
ghost use Rattle.byte_parts.specs.Parts.{part};
ghost use Rattle.page_slots.specs.Descs.{content_of};
ghost use Rattle.page_slots.specs.Laid.{IsLaid, bytes_for};
ghost use Rattle.page_slots.specs.Sound.{IsSound};
ghost use Rattle.page_mover.specs.Far.{far_of};
ghost use Rattle.page_mover.specs.Moves.{body, CanHalve, Halves, Keeps, Makes, MakesTurn};
ghost use Rattle.page_mover.specs.Turns.{turn_of};

use crate::turning::{Turn, chunks_in};
use hier_types::{Codec, Line};
use page_slots::{Shape, Slots, lay};

// Lays a packed page in the front of a block.
fn lay_front(codec: Codec, order: u8, target: u8, lines: &[Line; 64], bytes: &mut [u8])
    requires order_in { order ≤ 2 }
    requires is_target { IsTarget target }
    requires room { chunks_of (stored_sizes codec lines.now) target ≤ cap order }
    requires size_in { 64 * cap order ≤ length bytes.old }
    ensures { IsLaid codec order target lines.now (part 0 (64 * cap order) bytes.new) }
{
    let size = 64 * chunks_in(order) as usize;
    lay(codec, target, lines, &mut bytes[..size]);
}

// Lays the page anew, in the front of its block.
fn rewrite(codec: Codec, shape: Shape, order: u8, target: u8, bytes: &mut [u8]) -> Shape
    requires sound { IsSound codec shape bytes.old }
    requires order_in { order ≤ 2 }
    requires is_target { IsTarget target }
    requires room { chunks_of (stored_sizes codec (content_of shape bytes.old)) target ≤ cap order }
    requires size_in { 64 * cap order ≤ length bytes.old }
    ensures value { result ≡ Shape.Slotted (Slots.Packed order target) }
    ensures laid { body result bytes.new ≡ bytes_for codec result (content_of shape bytes.old) }
    ensures keeps { Keeps codec (content_of shape bytes.old) result bytes.new }
{
    let mut lines = [[0; 64]; 64];
    shape.gather(bytes, &mut lines);
    lay_front(codec, order, target, &lines, bytes);
    Shape::Slotted(Slots::Packed { order, target })
}

// The page in the first half of its block. It touches no byte.
fn halve(codec: Codec, slots: Slots, bytes: &[u8]) -> Shape
    requires sound { IsSound codec (Shape.Slotted slots) bytes.now }
    requires can { CanHalve slots bytes.now }
    ensures halves { Halves (Shape.Slotted slots) result }
    ensures keeps { Keeps codec (content_of (Shape.Slotted slots) bytes.now) result bytes.now }
{
    match slots {
        Slots::Packed { order, target } => Shape::Slotted(Slots::Packed {
            order: order - 1,
            target,
        }),
        Slots::Mid { .. } => unreachable!(),
    }
}

// Makes a turn of a page in slots that is none of a whole page.
fn make_in_slots(codec: Codec, slots: Slots, turn: Turn, bytes: &mut [u8]) -> Shape
    requires sound { IsSound codec (Shape.Slotted slots) bytes.old }
    requires turn { turn ≡ turn_of codec (Shape.Slotted slots) bytes.old }
    ensures makes { Makes codec (Shape.Slotted slots) bytes.old turn result bytes.new }
    ensures keeps { Keeps codec (content_of (Shape.Slotted slots) bytes.old) result bytes.new }
{
    match turn {
        Turn::Next => Shape::Slotted(slots),
        Turn::Zero => Shape::Zero,
        Turn::Rewrite { order, target } => {
            rewrite(codec, Shape::Slotted(slots), order, target, bytes)
        }
        Turn::Down { small } => Shape::Slotted(slots.shift_down(codec, small, bytes)),
        Turn::Up { large } => Shape::Slotted(slots.shift_up(codec, large, bytes)),
        Turn::Hoist { low, high, above } => {
            slots.hoist(low, high, above, bytes);
            Shape::Slotted(slots)
        }
        Turn::Halve => halve(codec, slots, bytes),
    }
}

// Makes a turn of a page whose lines stand one after another.
fn make_in_raw(codec: Codec, turn: Turn, bytes: &mut [u8]) -> Shape
    requires sound { IsSound codec Shape.Raw bytes.old }
    requires turn { turn ≡ turn_of codec Shape.Raw bytes.old }
    ensures makes { Makes codec Shape.Raw bytes.old turn result bytes.new }
    ensures keeps { Keeps codec (content_of Shape.Raw bytes.old) result bytes.new }
{
    match turn {
        Turn::Zero => Shape::Zero,
        Turn::Rewrite { order, target } => rewrite(codec, Shape::Raw, order, target, bytes),
        _ => Shape::Raw,
    }
}

fn make(codec: Codec, shape: Shape, turn: Turn, bytes: &mut [u8]) -> Shape
    requires sound { IsSound codec shape bytes.old }
    requires turn { turn ≡ turn_of codec shape bytes.old }
    ensures { MakesTurn codec shape bytes.old turn result bytes.new }
{
    match shape {
        Shape::Zero => Shape::Zero,
        Shape::Raw => make_in_raw(codec, turn, bytes),
        Shape::Slotted(slots) => make_in_slots(codec, slots, turn, bytes),
    }
}

/// Makes the next turn of a page, and answers its shape after that, whose bytes are the first of the block. A shift and a
/// hoist cost one line, and Zero, Halve and Next touch no byte.
pub fn make_turn(codec: Codec, shape: Shape, turn: Turn, bytes: &mut [u8]) -> Shape
    requires sound { IsSound codec shape bytes.old }
    requires turn { turn ≡ turn_of codec shape bytes.old }
    ensures makes { MakesTurn codec shape bytes.old turn result bytes.new }
    ensures falls { turn ≢ Turn.Next → far_of codec result (body result bytes.new) < far_of codec shape bytes.old }
{
    make(codec, shape, turn, bytes)
}
