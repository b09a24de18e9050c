// Lines that are put into a page.
ghost use Rattle.std.specs.Prelude.{◌≡◌, ◌≢◌, ◌↔◌, ◌<◌, ◌≤◌, ◌+◌, ◌*◌, ℕ, List, Some, None, IsTrue, IsFalse, MatchOption, false, length, slice_set};
ghost use Rattle.hier_types.specs.declared.settings.Codec.{Codec as AnyCodec};
ghost use Rattle.line_codec.specs.Slots.{encoding, fits, padded, Begins};
ghost use Rattle.byte_parts.specs.Parts.{part, written, ChangesWithin};
ghost use Rattle.page_slots.specs.Descs.{shape_of, content_of};
ghost use Rattle.page_slots.specs.Forms.{IsForm, room};
ghost use Rattle.page_slots.specs.Lines.{meta, chunk_of, chunk, mark, HasLines, HasOthers};
ghost use Rattle.page_slots.specs.Puts.{IsFree, IsTaken, AllTaken, IsLowestFree, HasNoPlace, GoesToPlace, Overflows, GoesRight, PutsLine, with_line, in_slot, in_chunk};
ghost use Rattle.page_slots.specs.Sound.{IsSound};

use crate::desc::{Desc, Shape};
use crate::form::Form;
use byte_parts::write_part;
use hier_types::{Codec, Line};
use line_codec::to_slot;

/// Whether a line was put into a page.
#[derive(Clone, Copy, Debug, PartialEq, Eq)]
pub enum PutResult {
    /// The page has the line.
    Done,
    /// The page has no place for the line, and is as it was.
    Overflow,
}

fn mark(line: &Line) -> u8
    ensures value { result ≡ mark line.now }
    ensures most { result ≤ 64 }
{
    if *line == [0; 64] { 64 } else { 0 }
}

pub(crate) fn write_chunk(bytes: &mut [u8], number: u8, from: &Line)
    requires { 64 * number + 64 ≤ length bytes.old }
    ensures changes { ChangesWithin (64 * number) 64 bytes.old bytes.new }
    ensures there { chunk bytes.new number ≡ from.now }
    ensures value { bytes.new ≡ written (64 * number) from.now bytes.old }
{
    write_part(bytes, 64 * number as usize, from);
}

#[tactic(auto, using(byte_parts::proofs::PartLemmas::writes))]
fn write_slot(codec: Codec, bytes: &mut [u8], start: usize, room: usize, from: &Line) -> bool
    requires { start + room ≤ length bytes.old }
    ensures fits { result ≡ fits codec room from.now }
    ensures changes { ChangesWithin start room bytes.old bytes.new }
    ensures begins { IsTrue result → Begins (encoding codec from.now) (part start room bytes.new) }
    ensures value { IsTrue result → bytes.new ≡ written start (padded room (encoding codec from.now)) bytes.old }
    ensures unchanged { IsFalse result → bytes.new ≡ bytes.old }
{
    to_slot(codec, from, &mut bytes[start..start + room])
}

// Puts the line into its slot. False, with the page as it was, where it does not fit.
pub(crate) fn put_slot(codec: Codec, form: Form, bytes: &mut [u8], line: u8, from: &Line) -> bool
    requires is_form { IsForm form (length bytes.old) }
    requires line_in { line < 64 }
    ensures fits { result ≡ fits codec (room form line) from.now }
    ensures puts { IsTrue result → PutsLine codec form line from.now None bytes.old bytes.new }
    ensures value { IsTrue result → bytes.new ≡ in_slot codec form line from.now bytes.old }
    ensures unchanged { IsFalse result → bytes.new ≡ bytes.old }
{
    let start = form.slot_start(line);
    let room = form.room(line);
    if !write_slot(codec, bytes, start, room, from) {
        return false;
    }
    bytes[line as usize] = mark(from);
    true
}

// Puts a line that does not fit its slot into a chunk.
pub(crate) fn put_chunk(form: Form, bytes: &mut [u8], line: u8, number: u8, from: &Line)
    requires is_form { IsForm form (length bytes.old) }
    requires line_in { line < 64 }
    requires above { form.large < number }
    requires below { number < form.chunks }
    ensures puts { (codec : AnyCodec) → fits codec (room form line) from.now ≡ false
        → PutsLine codec form line from.now (Some number) bytes.old bytes.new }
    ensures value { bytes.new ≡ in_chunk line from.now number bytes.old }
{
    write_chunk(bytes, number, from);
    bytes[line as usize] = 128 + mark(from) + number;
}

fn is_taken(bytes: &[u8], number: u8) -> bool
    requires { 64 ≤ length bytes.now }
    ensures taken { IsTrue result → IsTaken bytes.now number }
    ensures free { IsFalse result → IsFree bytes.now number }
{
    for index in 0..64usize {
        if bytes[index] >= 128 && bytes[index] % 64 == number {
            return true;
        }
    }
    false
}

pub(crate) fn free_chunk(form: Form, bytes: &[u8]) -> Option<u8>
    requires { IsForm form (length bytes.now) }
    ensures { MatchOption result (AllTaken form bytes.now form.chunks) (IsLowestFree form bytes.now) }
{
    for number in form.large + 1..form.chunks {
        if !is_taken(bytes, number) {
            return Some(number);
        }
    }
    None
}

// Puts the line into its slot, or into the chunk that it has, or into the lowest free one.
#[tactic(auto, using(crate::proofs::PutLemmas::rights))]
pub(crate) fn put_line(
    codec: Codec,
    form: Form,
    bytes: &mut [u8],
    line: u8,
    from: &Line,
) -> PutResult
    requires is_form { IsForm form (length bytes.old) }
    requires line_in { line < 64 }
    requires chunk_in { 128 ≤ meta bytes.old line
        → (form.large < chunk_of (meta bytes.old line)) × (chunk_of (meta bytes.old line) < form.chunks) }
    ensures done { result ≡ PutResult.Done → (lines : ℕ → List ℕ) → HasOthers codec form bytes.old line lines
        → HasLines codec form bytes.new (with_line lines line from.now) }
    ensures right { result ≡ PutResult.Done → GoesToPlace codec form line from.now bytes.old bytes.new }
    ensures overflow { result ≡ PutResult.Overflow ↔ HasNoPlace codec form bytes.old line from.now }
    ensures unchanged { result ≡ PutResult.Overflow → bytes.new ≡ bytes.old }
{
    if put_slot(codec, form, bytes, line, from) {
        return PutResult::Done;
    }
    let byte = bytes[line as usize];
    if byte >= 128 {
        put_chunk(form, bytes, line, byte % 64, from);
        return PutResult::Done;
    }
    let Some(number) = free_chunk(form, bytes) else {
        return PutResult::Overflow;
    };
    put_chunk(form, bytes, line, number, from);
    PutResult::Done
}

/// Puts a line in place of another into a page that is not zero, and leaves the other lines where they are. A line that
/// fits its slot goes there, and the chunk that it had as an exception is free. Any other goes to the chunk that it has,
/// or to the lowest free one above the slots. Overflow, with nothing changed, exactly where there is none. `bytes` are
/// those of the page's block. It looks at no other line, but for the metadata where a free chunk is sought.
pub fn put(codec: Codec, desc: &Desc, bytes: &mut [u8], line: u8, from: &Line) -> PutResult
    requires not_zero { shape_of desc.now ≢ Shape.Zero }
    requires sound { IsSound codec (shape_of desc.now) bytes.old }
    requires line_in { line < 64 }
    ensures sound { IsSound codec (shape_of desc.now) bytes.new }
    ensures content { result ≡ PutResult.Done
        → content_of (shape_of desc.now) bytes.new ≡ slice_set (content_of (shape_of desc.now) bytes.old) line from.now }
    ensures right { result ≡ PutResult.Done → GoesRight codec (shape_of desc.now) line from.now bytes.old bytes.new }
    ensures overflow { result ≡ PutResult.Overflow ↔ Overflows codec (shape_of desc.now) bytes.old line from.now }
    ensures unchanged { result ≡ PutResult.Overflow → bytes.new ≡ bytes.old }
{
    desc.shape().put(codec, bytes, line, from)
}

impl Shape {
    /// Puts a line into a page of this shape, on the terms of [`put`].
    pub fn put(self, codec: Codec, bytes: &mut [u8], line: u8, from: &Line) -> PutResult
        requires not_zero { self ≢ Shape.Zero }
        requires sound { IsSound codec self bytes.old }
        requires line_in { line < 64 }
        ensures sound { IsSound codec self bytes.new }
        ensures content { result ≡ PutResult.Done
            → content_of self bytes.new ≡ slice_set (content_of self bytes.old) line from.now }
        ensures right { result ≡ PutResult.Done → GoesRight codec self line from.now bytes.old bytes.new }
        ensures overflow { result ≡ PutResult.Overflow ↔ Overflows codec self bytes.old line from.now }
        ensures unchanged { result ≡ PutResult.Overflow → bytes.new ≡ bytes.old }
    {
        match self {
            Shape::Zero => unreachable!(),
            Shape::Raw => {
                write_chunk(bytes, line, from);
                PutResult::Done
            }
            Shape::Slotted(slots) => {
                let form = slots.form();
                put_line(codec, form, bytes, line, from)
            }
        }
    }
}
