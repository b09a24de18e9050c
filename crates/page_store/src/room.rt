// The pages in the bytes of one memory.
ghost use Rattle.std.specs.Prelude.{◌≡◌, ◌≢◌, ◌↔◌, ◌<◌, ◌≤◌, ◌*◌, take, length, slice_set};
ghost use Rattle.byte_parts.specs.Parts.{ChangesWithin};
ghost use Rattle.hier_types.specs.declared.settings.Codec.{Codec as AnyCodec};
ghost use Rattle.page_slots.specs.Descs.{content_of, line_of, size_of};
ghost use Rattle.page_slots.specs.Laid.{HasRoomFor, bytes_for};
ghost use Rattle.page_slots.specs.Puts.{GoesRight, Overflows};
ghost use Rattle.page_slots.specs.Sound.{IsSound};
ghost use Rattle.page_mover.specs.Far.{far_of};
ghost use Rattle.page_mover.specs.Moves.{MakesTurn, body};
ghost use Rattle.page_mover.specs.Turns.{turn_of};
ghost use Rattle.page_store.specs.Rooms.{held_of, start_of, bytes_of, IsWithin, IsInPage, changed};

use byte_parts::read_part;
use hier_types::{Codec, Line};
use page_mover::{Turn, make_turn};
use page_slots::{Desc, PutResult, Shape};

/// How a page is kept, and the first unit of its block, of 512 bytes. Where the page is zero, the unit means nothing.
#[derive(Clone, Copy, Debug, PartialEq, Eq)]
pub(crate) struct Held {
    pub(crate) shape: Shape,
    pub(crate) unit: u32,
}

/// What is new of a page that is laid anew.
#[derive(Debug, Drop)]
pub(crate) enum Change<'a> {
    Nothing,
    OneLine { line: u8, bytes: Line },
    AllLines { lines: &'a [Line; 64] },
}

impl Held {
    /// How the page of a descriptor is kept.
    pub(crate) fn of(desc: &Desc) -> Held
        ensures { result ≡ held_of desc.now }
    {
        let unit = match desc {
            Desc::Zero => 0,
            Desc::Raw { block } => block.unit(),
            Desc::Packed { block, .. } => block.unit(),
            Desc::Mid { block, .. } => block.unit(),
        };
        Held {
            shape: desc.shape(),
            unit,
        }
    }

    /// The first byte of the block.
    pub(crate) fn start(self) -> usize
        ensures value { result ≡ start_of self }
        ensures most { result ≤ 512 * 4294967295 }
    {
        match self.shape {
            Shape::Zero => 0,
            Shape::Raw => 512 * self.unit as usize,
            Shape::Slotted(_) => 512 * self.unit as usize,
        }
    }

    /// The bytes of the page's block.
    pub(crate) fn bytes(self, memory: &[u8]) -> &[u8]
        requires { IsWithin memory.now self }
        ensures { result.now ≡ bytes_of memory.now self }
    {
        let at = self.start();
        let size = self.shape.size();
        &memory[at..at + size]
    }

    /// One line of the page.
    pub(crate) fn line(self, memory: &[u8], line: u8, into: &mut Line)
        requires within { IsWithin memory.now self }
        requires sound { (codec : AnyCodec) × IsSound codec self.shape (bytes_of memory.now self) }
        requires line_in { line < 64 }
        ensures { into.new ≡ line_of self.shape (bytes_of memory.now self) line }
    {
        self.shape.line(self.bytes(memory), line, into);
    }

    /// The metadata of a page that has some.
    pub(crate) fn chunk(self, memory: &[u8]) -> Line
        requires within { IsWithin memory.now self }
        requires some { 64 ≤ size_of self.shape }
        ensures { result ≡ take 64 (bytes_of memory.now self) }
    {
        let mut chunk = [0; 64];
        read_part(memory, self.start(), 64, &mut chunk);
        chunk
    }

    /// Puts a line into its place in the block.
    #[tactic(auto, using(byte_parts::proofs::PartLemmas::writes))]
    pub(crate) fn put(self, codec: Codec, memory: &mut [u8], line: u8, from: &Line) -> PutResult
        requires within { IsWithin memory.old self }
        requires sound { IsSound codec self.shape (bytes_of memory.old self) }
        requires not_zero { self.shape ≢ Shape.Zero }
        requires line_in { line < 64 }
        ensures changes { ChangesWithin (start_of self) (size_of self.shape) memory.old memory.new }
        ensures sound { IsSound codec self.shape (bytes_of memory.new self) }
        ensures content { result ≡ PutResult.Done → content_of self.shape (bytes_of memory.new self)
            ≡ slice_set (content_of self.shape (bytes_of memory.old self)) line from.now }
        ensures right { result ≡ PutResult.Done
            → GoesRight codec self.shape line from.now (bytes_of memory.old self) (bytes_of memory.new self) }
        ensures overflow { result ≡ PutResult.Overflow ↔ Overflows codec self.shape (bytes_of memory.old self) line from.now }
        ensures unchanged { result ≡ PutResult.Overflow → memory.new ≡ memory.old }
    {
        let at = self.start();
        let size = self.shape.size();
        self.shape
            .put(codec, &mut memory[at..at + size], line, from)
    }

    /// Makes the page's next turn, and answers its shape after that, whose bytes are the first of the block.
    #[tactic(auto, using(byte_parts::proofs::PartLemmas::writes))]
    pub(crate) fn turn(self, codec: Codec, turn: Turn, memory: &mut [u8]) -> Shape
        requires within { IsWithin memory.old self }
        requires sound { IsSound codec self.shape (bytes_of memory.old self) }
        requires turn { turn ≡ turn_of codec self.shape (bytes_of memory.old self) }
        ensures changes { ChangesWithin (start_of self) (size_of self.shape) memory.old memory.new }
        ensures makes { MakesTurn codec self.shape (bytes_of memory.old self) turn result (bytes_of memory.new self) }
        ensures falls { turn ≢ Turn.Next → far_of codec result (body result (bytes_of memory.new self)) < far_of codec self.shape (bytes_of memory.old self) }
    {
        let at = self.start();
        let size = self.shape.size();
        make_turn(codec, self.shape, turn, &mut memory[at..at + size])
    }

    /// All lines of the page.
    fn gather(self, memory: &[u8], into: &mut [Line; 64])
        requires within { IsWithin memory.now self }
        requires sound { (codec : AnyCodec) × IsSound codec self.shape (bytes_of memory.now self) }
        ensures { into.new ≡ content_of self.shape (bytes_of memory.now self) }
    {
        self.shape.gather(self.bytes(memory), into);
    }

    /// Lays these lines in the block, over whatever stands there.
    #[tactic(auto, using(byte_parts::proofs::PartLemmas::writes))]
    fn lay(self, codec: Codec, lines: &[Line; 64], memory: &mut [u8])
        requires within { IsWithin memory.old self }
        requires room { HasRoomFor codec self.shape lines.now (size_of self.shape) }
        ensures changes { ChangesWithin (start_of self) (size_of self.shape) memory.old memory.new }
        ensures sound { IsSound codec self.shape (bytes_of memory.new self) }
        ensures content { content_of self.shape (bytes_of memory.new self) ≡ lines.now }
        ensures value { bytes_of memory.new self ≡ bytes_for codec self.shape lines.now }
    {
        let at = self.start();
        let size = self.shape.size();
        self.shape.lay(codec, lines, &mut memory[at..at + size]);
    }
}

impl Change<'_> {
    /// Brings the lines of a page up to date.
    fn apply(&self, lines: &mut [Line; 64])
        requires { IsInPage self.now }
        ensures { lines.new ≡ changed self.now lines.old }
    {
        match self {
            Change::Nothing => {}
            Change::OneLine { line, bytes } => lines[*line as usize] = *bytes,
            Change::AllLines { lines: others } => *lines = **others,
        }
    }
}

/// Lays a page anew, with what is new of it: from the block that it had into the one that it has, which may overlap.
pub(crate) fn relay(codec: Codec, old: Held, new: Held, change: &Change, memory: &mut [u8])
    requires old_within { IsWithin memory.old old }
    requires old_sound { IsSound codec old.shape (bytes_of memory.old old) }
    requires within { IsWithin memory.old new }
    requires in_page { IsInPage change.now }
    requires room { HasRoomFor codec new.shape (changed change.now (content_of old.shape (bytes_of memory.old old))) (size_of new.shape) }
    ensures changes { ChangesWithin (start_of new) (size_of new.shape) memory.old memory.new }
    ensures sound { IsSound codec new.shape (bytes_of memory.new new) }
    ensures content { content_of new.shape (bytes_of memory.new new) ≡ changed change.now (content_of old.shape (bytes_of memory.old old)) }
    ensures value { bytes_of memory.new new ≡ bytes_for codec new.shape (changed change.now (content_of old.shape (bytes_of memory.old old))) }
{
    let mut lines = [[0; 64]; 64];
    old.gather(memory, &mut lines);
    change.apply(&mut lines);
    new.lay(codec, &lines, memory);
}
