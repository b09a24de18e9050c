// Lines that stand packed in the segments of a set.
ghost use Rattle.std.specs.Prelude.{◌≡◌, ◌<◌, ◌≤◌, ◌+◌, ◌*◌, [], length, replicate, slice_set, IfOk};
ghost use Rattle.hier_types.specs.Settings.{IsWithin};
ghost use Rattle.line_codec.specs.Slots.{size_under};
ghost use Rattle.l2_cache.specs.Packed.{line_at};
ghost use Rattle.l2_cache.specs.Room.{segments};

use hier_types::{Codec, Line, NoMemory};
use l2_segments::Segments;
use line_codec::{Form, pack, unpack};
use std::alloc::Global;
use std::marker::Model;

/// The lines of a set's slots, each as its payload in segments of 8 bytes, and the form in which the payload is read
/// back beside it.
#[derive(Drop)]
pub(crate) struct PackedLines {
    codec: Codec,
    // A form for each slot. That of an empty slot says nothing.
    forms: Vec<Form>,
    // The payload of each slot that has a line, under the number of the slot.
    strings: Segments,
}

impl Model for PackedLines {
    ghost use Rattle.l2_segments.specs.Strings.{room_of};
    ghost use Rattle.l2_cache.specs.Packed.{Packed};
    ghost use Rattle.l2_cache.specs.PackedLines.{lines_of, ArePacked};

    ghost Value = { Packed };

    ghost view = { λ a. record { codec = a.codec; lines = lines_of a.forms.items a.strings.texts; room = room_of a.strings } };

    ghost invariant = { λ a. ArePacked a.codec a.forms.items a.strings };
}

impl PackedLines {
    /// Empty slots, two for each of 1 to 16 whole lines, in the room of these lines.
    pub(crate) fn new(alloc: Global, codec: Codec, ways: u32) -> Result<PackedLines, NoMemory>
        requires { IsWithin 1 16 ways }
        ensures { IfOk result (λ made. made ≡ record { codec = codec; lines = replicate (2 * ways) []; room = 8 * ways }) }
    {
        let forms = vec![in alloc; Form::Plain; (2 * ways) as usize]?;
        let strings = Segments::new(alloc, ways)?;
        Ok(PackedLines {
            codec,
            forms,
            strings,
        })
    }

    /// How many segments are free.
    pub(crate) fn room(&self) -> u32
        ensures room { result ≡ self.now.room }
        ensures most { result ≤ 4 * length self.now.lines }
        ensures few { length self.now.lines ≤ 32 }
    {
        self.strings.room()
    }

    /// Copies the line of a slot.
    pub(crate) fn copy_out(&self, slot: u32, into: &mut Line)
        requires { length (line_at self.now.lines slot) ≡ 64 }
        ensures { into.new ≡ line_at self.now.lines slot }
    {
        let mut bytes = [0; 64];
        let len = self.strings.get(slot as u8, &mut bytes);
        let form = self.forms[slot as usize];
        *into = unpack(form, &bytes[..len as usize]);
    }

    /// Puts a line into an empty slot, where enough segments are free for its payload.
    pub(crate) fn put(&mut self, slot: u32, from: &Line)
        requires inside { slot < length self.old.lines }
        requires empty { line_at self.old.lines slot ≡ [] }
        requires room { segments (size_under self.old.codec) from.now ≤ self.old.room }
        ensures lines { self.new.lines ≡ slice_set self.old.lines slot from.now }
        ensures room { self.new.room + segments (size_under self.old.codec) from.now ≡ self.old.room }
        ensures codec { self.new.codec ≡ self.old.codec }
    {
        let packed = pack(self.codec, from);
        self.forms[slot as usize] = packed.form;
        let placed = self.strings.place(slot as u8, packed.payload.as_slice());
        prove!(placed);
    }

    /// Empties a slot that has a line.
    pub(crate) fn release(&mut self, slot: u32)
        requires { length (line_at self.old.lines slot) ≡ 64 }
        ensures lines { self.new.lines ≡ slice_set self.old.lines slot [] }
        ensures room { self.new.room ≡ self.old.room + segments (size_under self.old.codec) (line_at self.old.lines slot) }
        ensures codec { self.new.codec ≡ self.old.codec }
    {
        self.strings.remove(slot as u8);
    }
}
