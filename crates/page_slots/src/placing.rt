// The places of a page: which bytes of the block each line has.
ghost use Rattle.std.specs.Prelude.{◌≡◌, ◌<◌, ◌≤◌, ◌+◌, ℕ, List, IfSome, length};
ghost use Rattle.hier_types.specs.declared.settings.Codec.{Codec as AnyCodec};
ghost use Rattle.line_codec.specs.Slots.{Says, used_in};
ghost use Rattle.byte_parts.specs.Parts.{part};
ghost use Rattle.page_slots.specs.Descs.{shape_of, line_of};
ghost use Rattle.page_slots.specs.Forms.{IsForm};
ghost use Rattle.page_slots.specs.Lines.{content_at, HasLine};
ghost use Rattle.page_slots.specs.Places.{chunk_row, block_row, line_row, slotted_place, raw_place, place_of, PlacesFit, PlacesAreApart, LinesHaveOnePlace, PlacesSuitLines, UsesStored};
ghost use Rattle.page_slots.specs.Sound.{IsSound};

use crate::desc::{Desc, Shape};
use crate::form::Form;
use line_codec::used_size;

/// What stands in a place.
#[derive(Clone, Copy, Debug, PartialEq, Eq)]
pub enum PlaceKind {
    /// The whole block of the page.
    Block,
    /// The metadata of the page's lines, a byte each.
    Meta,
    /// A line in its slot.
    Slot,
    /// A line, uncompressed, in a chunk of its own.
    Exception,
    /// A line, uncompressed, in a page whose lines stand one after another.
    Raw,
}

/// A run of bytes in a page's block, and what stands in it.
#[derive(Clone, Copy, Debug, PartialEq, Eq)]
pub struct PlaceRow {
    /// What stands there.
    pub kind: PlaceKind,
    /// The line that stands there, 0 to 63, or 64 where it is none.
    pub line: u8,
    /// Its first byte, counted from the block's first byte.
    pub at: u16,
    /// How many bytes it has.
    pub room: u16,
    /// How many of these say something: in a slot, those that say its line.
    pub used: u16,
}

fn block_place(bytes: &[u8]) -> PlaceRow
    requires { length bytes.now ≤ 4096 }
    ensures { result ≡ block_row (length bytes.now) }
{
    let size = bytes.len() as u16;
    PlaceRow {
        kind: PlaceKind::Block,
        line: 64,
        at: 0,
        room: size,
        used: size,
    }
}

fn chunk_place(kind: PlaceKind, line: u8, number: u8) -> PlaceRow
    ensures { result ≡ chunk_row kind line number }
{
    PlaceRow {
        kind,
        line,
        at: 64 * number as u16,
        room: 64,
        used: 64,
    }
}

#[tactic(auto, unfolding(byte_parts::specs::Parts::part))]
fn slot_used(bytes: &[u8], start: usize, room: usize) -> u8
    requires inside { start + room ≤ length bytes.now }
    requires says { (line : List ℕ) × Says (part start room bytes.now) line }
    ensures { result ≡ used_in (part start room bytes.now) }
{
    used_size(&bytes[start..start + room])
}

// The place of a line: its chunk where it is an exception, else its slot.
#[tactic(auto, unfolding(crate::specs::Places::line_row))]
fn line_place(form: Form, bytes: &[u8], line: u8) -> PlaceRow
    requires is_form { IsForm form (length bytes.now) }
    requires line_in { line < 64 }
    requires has_line { (codec : AnyCodec) × HasLine codec form bytes.now line (content_at form bytes.now line) }
    ensures { result ≡ line_row form bytes.now line }
{
    let byte = bytes[line as usize];
    if byte >= 128 {
        return chunk_place(PlaceKind::Exception, line, byte % 64);
    }
    let start = form.slot_start(line);
    let room = form.room(line);
    PlaceRow {
        kind: PlaceKind::Slot,
        line,
        at: start as u16,
        room: room as u16,
        used: slot_used(bytes, start, room) as u16,
    }
}

#[tactic(auto, unfolding(crate::specs::Places::slotted_place))]
fn slotted_place(form: Form, bytes: &[u8], index: u8) -> Option<PlaceRow>
    requires is_form { IsForm form (length bytes.now) }
    requires has_lines { (codec : AnyCodec) × ((line : ℕ) → line < 64
        → HasLine codec form bytes.now line (content_at form bytes.now line)) }
    ensures { result ≡ slotted_place form bytes.now index }
{
    match index {
        0 => Some(block_place(bytes)),
        1 => Some(chunk_place(PlaceKind::Meta, 64, 0)),
        2..=65 => Some(line_place(form, bytes, index - 2)),
        _ => None,
    }
}

#[tactic(auto, unfolding(crate::specs::Places::raw_place))]
fn raw_place(bytes: &[u8], index: u8) -> Option<PlaceRow>
    requires { length bytes.now ≡ 4096 }
    ensures { result ≡ raw_place bytes.now index }
{
    match index {
        0 => Some(block_place(bytes)),
        1..=64 => Some(chunk_place(PlaceKind::Raw, index - 1, index - 1)),
        _ => None,
    }
}

/// A place of a page by its index. Index 0 is the whole block. On a page in slots 1 is the metadata, and 2 to 65 are the
/// lines; where the lines stand one after another they are 1 to 64. A zero page has no place. None exactly where the
/// index is past these. `bytes` are those of the page's block, on the terms of [`get`](crate::get).
pub fn place(desc: &Desc, bytes: &[u8], index: u8) -> Option<PlaceRow>
    requires { (codec : AnyCodec) × IsSound codec (shape_of desc.now) bytes.now }
    ensures value { result ≡ place_of (shape_of desc.now) bytes.now index }

    // What a line uses of its slot is its stored size.
    ensures used { (codec : AnyCodec) → IsSound codec (shape_of desc.now) bytes.now
        → IfSome result (λ row. UsesStored codec (line_of (shape_of desc.now) bytes.now row.line) row) }
{
    match desc.shape() {
        Shape::Zero => None,
        Shape::Raw => raw_place(bytes, index),
        Shape::Slotted(slots) => slotted_place(slots.form(), bytes, index),
    }
}

/// Each place of a sound page lies in the block, and uses no more bytes than it has.
pub fn places_fit()
    ensures { PlacesFit }
{}

/// No two places of a sound page share a byte, but for the whole block.
pub fn places_are_apart()
    ensures { PlacesAreApart }
{}

/// Each line of a page that is not zero has one place, whose index its number tells.
pub fn lines_have_one_place()
    ensures { LinesHaveOnePlace }
{}

/// A line of a sound page stands in its slot exactly where it fits it, and uses its stored size of it. Else it stands in a
/// chunk of its own.
pub fn places_suit_lines()
    ensures { PlacesSuitLines }
{}
