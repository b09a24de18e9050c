// Where strings stand in a row of bytes, and how they are slid together.
ghost use Rattle.std.specs.Prelude.{◌≡◌, ◌≤◌, ◌+◌, ◌*◌, ℕ, length};
ghost use Rattle.l2_segments.specs.Strings.{segments_of};
ghost use Rattle.byte_parts.specs.Parts.{part, ChangesWithin};
ghost use Rattle.l2_segments.specs.Held.{texts_of, segments_in, IsLaid, HasTag};

use crate::held::{Held, first_byte};
use byte_parts::move_part;

/// The index of the string under a tag.
pub(crate) fn index_of(held: &[Held], tag: u8) -> usize
    requires { (index : ℕ) × HasTag held.now tag index }
    ensures { HasTag held.now tag result }
{
    match held.iter().position(|string| string.tag == tag) {
        Some(index) => index,
        None => unreachable!(),
    }
}

/// The segments that the strings take.
pub(crate) fn segments_in(held: &[Held]) -> u32
    requires { segments_in held.now ≤ 128 }
    ensures { result ≡ segments_in held.now }
{
    held.iter().map(|string| string.segments()).sum()
}

/// The segment behind the last string.
fn end_of(held: &[Held]) -> u32
    requires { (size : ℕ) × (size ≤ 1024) × IsLaid 0 size held.now }
    ensures behind { IsLaid 0 (8 * result) held.now }
    ensures least { (size : ℕ) → IsLaid 0 size held.now → 8 * result ≤ size }
{
    match held.last() {
        Some(last) => last.end(),
        None => 0,
    }
}

/// The segment from which a string of so many segments can be put behind the others. Where too few are left there,
/// the others are slid together.
pub(crate) fn start_for(store: &mut [u8], held: &mut [Held], segments: u32) -> u32
    requires small { length store.old ≤ 1024 }
    requires laid { IsLaid 0 (length store.old) held.old }
    requires room { 8 * (segments_in held.old + segments) ≤ length store.old }
    ensures texts { texts_of store.new held.new ≡ texts_of store.old held.old }
    ensures behind { IsLaid 0 (8 * result) held.new }
    ensures room { 8 * (result + segments) ≤ length store.old }
{
    let end = end_of(held);
    if first_byte(end + segments) <= store.len() {
        return end;
    }
    slide(store, held)
}

/// Slides the strings together towards the lower end, in the order in which they stand, and tells the segment behind
/// them.
fn slide(store: &mut [u8], held: &mut [Held]) -> u32
    requires small { length store.old ≤ 1024 }
    requires laid { IsLaid 0 (length store.old) held.old }
    ensures texts { texts_of store.new held.new ≡ texts_of store.old held.old }
    ensures behind { IsLaid 0 (8 * result) held.new }
    ensures packed { result ≡ segments_in held.old }
{
    let mut end = 0;
    for string in held.iter_mut() {
        move_string(store, string, end);
        end = string.end();
    }
    end
}

/// Moves a string down to a segment.
fn move_string(store: &mut [u8], string: &mut Held, to: u32)
    requires down { to ≤ string.old.start }
    requires inside { 8 * string.old.start + string.old.len ≤ length store.old }
    ensures string { string.new ≡ record string.old { start = to } }
    ensures changes { ChangesWithin (8 * to) string.old.len store.old store.new }
    ensures there { part (8 * to) string.old.len store.new ≡ part (8 * string.old.start) string.old.len store.old }
{
    let from = first_byte(string.start);
    move_part(store, from, string.len as usize, first_byte(to));
    string.start = to;
}
