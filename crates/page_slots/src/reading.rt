// The lines of a page as they are read.
ghost use Rattle.std.specs.Prelude.{◌≡◌, ◌<◌, ◌≤◌, ◌+◌, ◌*◌, ℕ, List, Some, length, slice_get};
ghost use Rattle.hier_types.specs.declared.settings.Codec.{Codec as AnyCodec};
ghost use Rattle.line_codec.specs.Slots.{Says};
ghost use Rattle.byte_parts.specs.Parts.{part};
ghost use Rattle.page_slots.specs.Descs.{shape_of, line_of, content_of};
ghost use Rattle.page_slots.specs.Forms.{IsForm};
ghost use Rattle.page_slots.specs.Lines.{chunk, content_at, HasLine};
ghost use Rattle.page_slots.specs.Sound.{IsSound};

use crate::desc::{Desc, Shape};
use crate::form::Form;
use byte_parts::read_part;
use hier_types::Line;
use line_codec::from_slot;

fn read_chunk(bytes: &[u8], number: u8, into: &mut Line)
    requires { 64 * number + 64 ≤ length bytes.now }
    ensures { into.new ≡ chunk bytes.now number }
{
    read_part(bytes, 64 * number as usize, 64, into);
}

#[tactic(auto, unfolding(byte_parts::specs::Parts::part))]
fn read_slot(bytes: &[u8], start: usize, room: usize) -> Option<Line>
    requires { start + room ≤ length bytes.now }
    ensures { (line : List ℕ) → Says (part start room bytes.now) line → result ≡ Some line }
{
    from_slot(&bytes[start..start + room])
}

// The line from its chunk where it is an exception, else from its slot.
pub(crate) fn read_line(form: Form, bytes: &[u8], line: u8, into: &mut Line)
    requires is_form { IsForm form (length bytes.now) }
    requires line_in { line < 64 }
    requires has_line { (codec : AnyCodec) × HasLine codec form bytes.now line (content_at form bytes.now line) }
    ensures { into.new ≡ content_at form bytes.now line }
{
    let byte = bytes[line as usize];
    if byte >= 128 {
        read_chunk(bytes, byte % 64, into);
        return;
    }
    let start = form.slot_start(line);
    let room = form.room(line);
    if let Some(found) = read_slot(bytes, start, room) {
        *into = found;
    }
}

/// Reads one line of a page. `bytes` are those of the page's block, and none where the page is zero. The page has to be
/// sound under some codec: which one, the slot tells. It reads the line's metadata, and its slot or its chunk.
pub fn get(desc: &Desc, bytes: &[u8], line: u8, into: &mut Line)
    requires line_in { line < 64 }
    requires sound { (codec : AnyCodec) × IsSound codec (shape_of desc.now) bytes.now }
    ensures { slice_get (content_of (shape_of desc.now) bytes.now) line ≡ Some into.new }
{
    desc.shape().line(bytes, line, into);
}

/// Reads all lines of a page, on the terms of [`get`].
pub fn gather(desc: &Desc, bytes: &[u8], into: &mut [Line; 64])
    requires { (codec : AnyCodec) × IsSound codec (shape_of desc.now) bytes.now }
    ensures { into.new ≡ content_of (shape_of desc.now) bytes.now }
{
    desc.shape().gather(bytes, into);
}

impl Shape {
    /// Reads one line of a page of this shape, on the terms of [`get`].
    pub fn line(self, bytes: &[u8], line: u8, into: &mut Line)
        requires line_in { line < 64 }
        requires sound { (codec : AnyCodec) × IsSound codec self bytes.now }
        ensures { into.new ≡ line_of self bytes.now line }
    {
        match self {
            Shape::Zero => into.fill(0),
            Shape::Raw => read_chunk(bytes, line, into),
            Shape::Slotted(slots) => {
                let form = slots.form();
                read_line(form, bytes, line, into);
            }
        }
    }

    /// Reads all lines of a page of this shape, whose block may be another one by now.
    pub fn gather(self, bytes: &[u8], into: &mut [Line; 64])
        requires { (codec : AnyCodec) × IsSound codec self bytes.now }
        ensures { into.new ≡ content_of self bytes.now }
    {
        for line in 0..64u8 {
            let mut found = [0; 64];
            self.line(bytes, line, &mut found);
            into[line as usize] = found;
        }
    }
}
