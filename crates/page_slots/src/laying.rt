// Pages that are written whole.
ghost use Rattle.std.specs.Prelude.{◌≡◌, ◌<◌, ◌≤◌, ◌+◌, ◌*◌, ℕ, length};
ghost use Rattle.hier_types.specs.declared.settings.Codec.{Codec as AnyCodec};
ghost use Rattle.line_codec.specs.Layout.{IsTarget, stored_sizes, chunks_of};
ghost use Rattle.page_slots.specs.Descs.{content_of};
ghost use Rattle.page_slots.specs.Forms.{IsForm, packed_form};
ghost use Rattle.page_slots.specs.Laid.{IsPackedSize, next_chunk, LaidUpTo, IsLaid, HasRoomFor, bytes_for, SlottedPagesHaveRoom};
ghost use Rattle.page_slots.specs.Sound.{IsSound};

use crate::desc::{Shape, Slots};
use crate::form::Form;
use crate::putting::{put_chunk, put_slot, write_chunk};
use hier_types::{Codec, Line};

// Lays one line more, in its slot or in the next chunk, and answers the chunk that is next then.
fn lay_line(
    codec: Codec,
    form: Form,
    lines: &[Line; 64],
    bytes: &mut [u8],
    line: u8,
    next: u8,
) -> u8
    requires is_form { IsForm form (length bytes.old) }
    requires line_in { line < 64 }
    requires flat { form.small ≡ form.large }
    requires room { chunks_of (stored_sizes codec lines.now) form.large ≤ form.chunks }
    requires is_next { next ≡ next_chunk codec form.large lines.now line }
    requires laid { LaidUpTo codec form lines.now line bytes.old }
    ensures is_next { result ≡ next_chunk codec form.large lines.now (line + 1) }
    ensures laid { LaidUpTo codec form lines.now (line + 1) bytes.new }
{
    let from = &lines[line as usize];
    if put_slot(codec, form, bytes, line, from) {
        return next;
    }
    put_chunk(form, bytes, line, next, from);
    next + 1
}

fn lay_lines(codec: Codec, form: Form, lines: &[Line; 64], bytes: &mut [u8])
    requires is_form { IsForm form (length bytes.old) }
    requires flat { form.small ≡ form.large }
    requires room { chunks_of (stored_sizes codec lines.now) form.large ≤ form.chunks }
    ensures { LaidUpTo codec form lines.now 64 bytes.new }
{
    bytes.fill(0);
    let mut next = form.large + 1;
    for line in 0..64u8 {
        next = lay_line(codec, form, lines, bytes, line, next);
    }
}

// The form of a packed page in a block of so many bytes.
fn form_in(target: u8, size: usize) -> Form
    requires { (order : ℕ) × IsPackedSize order size }
    ensures { (order : ℕ) → IsPackedSize order size → result ≡ packed_form order target }
{
    Form {
        small: target,
        large: target,
        at: 0,
        chunks: (size / 64) as u8,
    }
}

/// Writes a packed page over whatever stands in the block: each line that fits it in its slot of `target` bytes, the
/// others in line order in the chunks behind the slots, and zeros where no line stands. The block has to have the
/// length of one of order 0 to 2, and chunks enough for the metadata, the slots and these others. Each line is encoded
/// once.
pub fn lay(codec: Codec, target: u8, lines: &[Line; 64], bytes: &mut [u8])
    requires is_target { IsTarget target }
    requires is_size { (order : ℕ) × IsPackedSize order (length bytes.old) }
    requires room { 64 * chunks_of (stored_sizes codec lines.now) target ≤ length bytes.old }
    ensures { (order : ℕ) → IsPackedSize order (length bytes.old)
        → IsLaid codec order target lines.now bytes.new }
{
    let form = form_in(target, bytes.len());
    lay_lines(codec, form, lines, bytes);
}

/// Writes the lines one after another, over whatever stands in the block, which has to have a page's 4,096 bytes.
pub fn lay_raw(lines: &[Line; 64], bytes: &mut [u8])
    requires { length bytes.old ≡ 4096 }
    ensures sound { (codec : AnyCodec) → IsSound codec Shape.Raw bytes.new }
    ensures content { content_of Shape.Raw bytes.new ≡ lines.now }
    ensures value { (codec : AnyCodec) → bytes.new ≡ bytes_for codec Shape.Raw lines.now }
{
    for line in 0..64u8 {
        write_chunk(bytes, line, &lines[line as usize]);
    }
}

/// The block of a sound page in slots has chunks enough for its lines to be laid in it, with the larger of its slots.
pub fn slotted_pages_have_room()
    ensures { SlottedPagesHaveRoom }
{}

impl Shape {
    /// Writes a page of this shape, on the terms of [`lay`] and [`lay_raw`], over whatever stands in the block.
    pub fn lay(self, codec: Codec, lines: &[Line; 64], bytes: &mut [u8])
        requires { HasRoomFor codec self lines.now (length bytes.old) }
        ensures sound { IsSound codec self bytes.new }
        ensures content { content_of self bytes.new ≡ lines.now }
        ensures value { bytes.new ≡ bytes_for codec self lines.now }
    {
        match self {
            Shape::Zero => {}
            Shape::Raw => lay_raw(lines, bytes),
            Shape::Slotted(Slots::Packed { target, .. }) => lay(codec, target, lines, bytes),
            Shape::Slotted(Slots::Mid { .. }) => unreachable!(),
        }
    }
}
