// What slots hold: a tag and the bytes of a line in each.
ghost use Rattle.std.specs.Prelude.{◌≡◌, ◌<◌, [], length, slice_index, slice_index_or, slice_set};
ghost use Rattle.recency.specs.Slots.{tag_at, entry_at};

use crate::entry::{Entry, Tag};
use hier_types::Line;

/// The tag of a slot.
pub fn tag_of(tags: &[Tag], slot: u32) -> Tag
    requires { slot < length tags.now }
    ensures { result ≡ tag_at tags.now slot }
{
    tags[slot as usize]
}

/// What a slot keeps.
pub(crate) fn entry_in(tags: &[Tag], bytes: &[Line], slot: u32) -> Entry
    requires tag { slot < length tags.now }
    requires bytes { slot < length bytes.now }
    ensures { result ≡ entry_at tags.now bytes.now slot }
{
    let tag = tags[slot as usize];
    let line = bytes[slot as usize];
    Entry {
        line: tag.line,
        bytes: line,
        dirty: tag.dirty,
    }
}

/// Gives a slot its line, dirty or clean.
pub fn set_tag(tags: &mut [Tag], slot: u32, line: u32, dirty: bool)
    requires { slot < length tags.old }
    ensures { tags.new ≡ slice_set tags.old slot (record { line = line; dirty = dirty }) }
{
    tags[slot as usize] = Tag { line, dirty };
}

/// Marks a slot's line as dirty or clean.
pub fn mark(tags: &mut [Tag], slot: u32, dirty: bool)
    requires { slot < length tags.old }
    ensures { tags.new ≡ slice_set tags.old slot (record { line = (tag_at tags.old slot).line; dirty = dirty }) }
{
    let line = tag_of(tags, slot).line;
    set_tag(tags, slot, line, dirty);
}

/// Copies a slot's bytes.
pub(crate) fn copy_out(bytes: &[Line], slot: u32, into: &mut Line)
    requires { slot < length bytes.now }
    ensures { into.new ≡ slice_index_or bytes.now slot [] }
{
    *into = bytes[slot as usize];
}

/// Changes a slot's bytes.
pub(crate) fn copy_in(bytes: &mut [Line], slot: u32, from: &Line)
    requires { slot < length bytes.old }
    ensures { bytes.new ≡ slice_set bytes.old slot from.now }
{
    bytes[slot as usize] = *from;
}

/// One of a slot's bytes.
pub(crate) fn byte_in(bytes: &[Line], slot: u32, offset: u32) -> u8
    requires slot { slot < length bytes.now }
    requires inside { offset < 64 }
    ensures { result ≡ slice_index (slice_index_or bytes.now slot []) offset }
{
    bytes[slot as usize][offset as usize]
}

/// Changes one of a slot's bytes.
pub(crate) fn set_byte_in(bytes: &mut [Line], slot: u32, offset: u32, byte: u8)
    requires slot { slot < length bytes.old }
    requires inside { offset < 64 }
    ensures { bytes.new ≡ slice_set bytes.old slot (slice_set (slice_index_or bytes.old slot []) offset byte) }
{
    bytes[slot as usize][offset as usize] = byte;
}
