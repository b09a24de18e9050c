// A line that moves to a slot of another length, and an exception that moves to another chunk.
ghost use Rattle.std.specs.Prelude.{◌≡◌, ◌≢◌, ◌<◌, ◌≤◌, ◌+◌, ℕ, List, MatchOption, length};
ghost use Rattle.hier_types.specs.declared.settings.Codec.{Codec as AnyCodec};
ghost use Rattle.line_codec.specs.Layout.{cap, stored_sizes, exceptions_of};
ghost use Rattle.page_slots.specs.Chunks.{count_in};
ghost use Rattle.page_slots.specs.Descs.{content_of};
ghost use Rattle.page_slots.specs.Forms.{form_of, order_of, IsForm};
ghost use Rattle.page_slots.specs.Lines.{meta, chunk_of, content_at, HasLine, HasLines, HasOthers};
ghost use Rattle.page_slots.specs.Moves.{next_down, form_down, moved_down, CanMoveDown, next_up, form_up, moved_up, CanMoveUp, step_down, step_up, IsStep, above_form, NoneIn, IsLowestIn, Hoists, CanHoist};
ghost use Rattle.page_slots.specs.Puts.{GoesToPlace, HasNoPlace, IsFree, in_chunk};
ghost use Rattle.page_slots.specs.Sound.{HoldsSlots, IsSlotted, IsSound};

use crate::desc::{Shape, Slots};
use crate::form::Form;
use crate::putting::{free_chunk, put_chunk, put_line};
use crate::reading::read_line;
use hier_types::Codec;

/// A line that moves next, the form in which it has its new place, and the slots after it.
#[derive(Clone, Copy)]
pub(crate) struct Step {
    after: Form,
    line: u8,
    next: Slots,
}

// Moves a line from its place in one form to its place in another, in which all others have theirs.
fn move_line(codec: Codec, before: Form, after: Form, bytes: &mut [u8], line: u8)
    requires before_form { IsForm before (length bytes.old) }
    requires after_form { IsForm after (length bytes.old) }
    requires line_in { line < 64 }
    requires has_line { HasLine codec before bytes.old line (content_at before bytes.old line) }
    requires others { HasOthers codec after bytes.old line (content_at before bytes.old) }
    requires chunk_in { 128 ≤ meta bytes.old line
        → (after.large < chunk_of (meta bytes.old line)) × (chunk_of (meta bytes.old line) < after.chunks) }
    requires has_place { ¬ HasNoPlace codec after bytes.old line (content_at before bytes.old line) }
    ensures lines { HasLines codec after bytes.new (content_at before bytes.old) }
    ensures right { GoesToPlace codec after line (content_at before bytes.old line) bytes.old bytes.new }
{
    let mut found = [0; 64];
    read_line(before, bytes, line, &mut found);
    let from = found;
    put_line(codec, after, bytes, line, &from);
}

// The line that has the chunk as an exception.
fn owner(bytes: &[u8], number: u8) -> Option<u8>
    requires { 64 ≤ length bytes.now }
    ensures { MatchOption result (IsFree bytes.now number)
        (λ line. (line < 64) × ((128 ≤ meta bytes.now line) × (chunk_of (meta bytes.now line) ≡ number))) }
{
    for line in 0..64u8 {
        let byte = bytes[line as usize];
        if byte >= 128 && byte % 64 == number {
            return Some(line);
        }
    }
    None
}

// The exception in the lowest chunk from `low` on and below `high`.
fn lowest_in(bytes: &[u8], low: u8, high: u8) -> Option<u8>
    requires { 64 ≤ length bytes.now }
    ensures { MatchOption result (NoneIn bytes.now low high) (IsLowestIn bytes.now low high) }
{
    for number in low..high {
        if let Some(line) = owner(bytes, number) {
            return Some(line);
        }
    }
    None
}

// Moves an exception to a free chunk.
fn hoist_line(form: Form, bytes: &mut [u8], line: u8, number: u8)
    requires is_form { IsForm form (length bytes.old) }
    requires line_in { line < 64 }
    requires has_lines { (codec : AnyCodec) × HasLines codec form bytes.old (content_at form bytes.old) }
    requires is_exception { 128 ≤ meta bytes.old line }
    requires above { form.large < number }
    requires below { number < form.chunks }
    requires free { IsFree bytes.old number }
    ensures lines { (codec : AnyCodec) → HasLines codec form bytes.old (content_at form bytes.old)
        → HasLines codec form bytes.new (content_at form bytes.old) }
    ensures value { bytes.new ≡ in_chunk line (content_at form bytes.old line) number bytes.old }
{
    let mut found = [0; 64];
    read_line(form, bytes, line, &mut found);
    let from = found;
    put_chunk(form, bytes, line, number, &from);
}

// The form with slots up to another chunk.
fn above_form(form: Form, above: u8) -> Form
    ensures { result ≡ above_form form above }
{
    Form {
        small: form.small,
        large: above,
        at: form.at,
        chunks: form.chunks,
    }
}

/// How many exceptions stand in the chunks from `low` on and below `high`.
#[tactic(auto, using(crate::proofs::ChunkLemmas::counts))]
pub fn exceptions_between(bytes: &[u8], low: u8, high: u8) -> u8
    requires { 64 ≤ length bytes.now }
    ensures value { result ≡ count_in low high bytes.now 64 }
    ensures most { result ≤ 64 }
{
    let mut count = 0;
    for line in 0..64usize {
        let byte = bytes[line];
        if byte >= 128 && byte % 64 >= low && byte % 64 < high {
            count += 1;
        }
    }
    count
}

impl Slots {
    // The next line to move to a smaller slot.
    fn step_down(self, small: u8) -> Step
        requires { (size : ℕ) × HoldsSlots self size }
        ensures { result ≡ step_down self small }
    {
        let before = self.form();
        let line = match self {
            Slots::Packed { .. } => 0,
            Slots::Mid { at, .. } => at,
        };
        let next = match self {
            Slots::Packed { order, target } => Slots::Mid {
                order,
                small,
                large: target,
                at: 1,
            },
            Slots::Mid { order, at: 63, .. } => Slots::Packed {
                order,
                target: small,
            },
            Slots::Mid {
                order,
                large,
                at,
                ..
            } => Slots::Mid {
                order,
                small,
                large,
                at: at + 1,
            },
        };
        Step {
            after: Form {
                small,
                large: before.large,
                at: line + 1,
                chunks: before.chunks,
            },
            line,
            next,
        }
    }

    // The next line to move to a larger slot.
    fn step_up(self, large: u8) -> Step
        requires { (size : ℕ) × HoldsSlots self size }
        ensures { result ≡ step_up self large }
    {
        let before = self.form();
        let line = match self {
            Slots::Packed { .. } => 63,
            Slots::Mid { at, .. } => at - 1,
        };
        let next = match self {
            Slots::Packed { order, target } => Slots::Mid {
                order,
                small: target,
                large,
                at: 63,
            },
            Slots::Mid { order, at: 1, .. } => Slots::Packed {
                order,
                target: large,
            },
            Slots::Mid {
                order,
                small,
                at,
                ..
            } => Slots::Mid {
                order,
                small,
                large,
                at: at - 1,
            },
        };
        Step {
            after: Form {
                small: before.small,
                large,
                at: line,
                chunks: before.chunks,
            },
            line,
            next,
        }
    }

    // Moves a line as the step says.
    fn make_step(self, codec: Codec, step: Step, bytes: &mut [u8]) -> Slots
        requires sound { IsSlotted codec self bytes.old }
        requires is_step { IsStep self bytes.old step }
        requires has_place { ¬ HasNoPlace codec step.after bytes.old step.line (content_at (form_of self) bytes.old step.line) }
        ensures value { result ≡ step.next }
        ensures right { GoesToPlace codec step.after step.line (content_at (form_of self) bytes.old step.line) bytes.old bytes.new }
        ensures sound { IsSlotted codec step.next bytes.new }
        ensures content { content_of (Shape.Slotted step.next) bytes.new ≡ content_of (Shape.Slotted self) bytes.old }
    {
        let before = self.form();
        move_line(codec, before, step.after, bytes, step.line);
        step.next
    }

    /// Moves the next line to a slot of `small` bytes, and answers the slots after that. The page keeps its lines. The line
    /// becomes an exception, in the lowest free chunk, where the slot does not hold it. The lines move from the first to the
    /// last, so no slot covers one that has not moved yet.
    pub fn shift_down(self, codec: Codec, small: u8, bytes: &mut [u8]) -> Slots
        requires sound { IsSound codec (Shape.Slotted self) bytes.old }
        requires can { CanMoveDown self small }
        requires rooms { 1 + (form_of self).large + exceptions_of (stored_sizes codec (content_of (Shape.Slotted self) bytes.old)) small
            ≤ cap (order_of self) }
        ensures value { result ≡ moved_down self small }
        ensures right { GoesToPlace codec (form_down self small) (next_down self) (content_at (form_of self) bytes.old (next_down self)) bytes.old bytes.new }
        ensures sound { IsSound codec (Shape.Slotted result) bytes.new }
        ensures content { content_of (Shape.Slotted result) bytes.new ≡ content_of (Shape.Slotted self) bytes.old }
    {
        let step = self.step_down(small);
        self.make_step(codec, step, bytes)
    }

    /// Moves the next line to a slot of `large` bytes, and answers the slots after that. The page keeps its lines. The chunk
    /// of an exception that the slot holds is free. The lines move from the last to the first, so no slot covers one that
    /// has not moved yet.
    pub fn shift_up(self, codec: Codec, large: u8, bytes: &mut [u8]) -> Slots
        requires sound { IsSound codec (Shape.Slotted self) bytes.old }
        requires can { CanMoveUp self large bytes.old }
        ensures value { result ≡ moved_up self large }
        ensures right { GoesToPlace codec (form_up self large) (next_up self) (content_at (form_of self) bytes.old (next_up self)) bytes.old bytes.new }
        ensures sound { IsSound codec (Shape.Slotted result) bytes.new }
        ensures content { content_of (Shape.Slotted result) bytes.new ≡ content_of (Shape.Slotted self) bytes.old }
    {
        let step = self.step_up(large);
        self.make_step(codec, step, bytes)
    }

    /// Moves one exception: of those in the chunks from `low` on and below `high` the one in the lowest goes to the lowest
    /// free chunk above `above`. The page keeps its lines, and its slots.
    pub fn hoist(self, low: u8, high: u8, above: u8, bytes: &mut [u8])
        requires sound { (codec : AnyCodec) × IsSound codec (Shape.Slotted self) bytes.old }
        requires can { CanHoist (form_of self) low high above bytes.old }
        ensures hoists { Hoists (form_of self) low high above bytes.old bytes.new }
        ensures sound { (codec : AnyCodec) → IsSound codec (Shape.Slotted self) bytes.old → IsSound codec (Shape.Slotted self) bytes.new }
        ensures content { content_of (Shape.Slotted self) bytes.new ≡ content_of (Shape.Slotted self) bytes.old }
    {
        let form = self.form();
        let Some(line) = lowest_in(bytes, low, high) else {
            return;
        };
        let Some(number) = free_chunk(above_form(form, above), bytes) else {
            return;
        };
        hoist_line(form, bytes, line, number);
    }
}
