// Strings in segments.
ghost use Rattle.std.specs.Prelude.{◌≡◌, ◌≢◌, ◌<◌, ◌≤◌, ◌+◌, ◌*◌, ℕ, ◌↔◌, [], ◌++◌, Some, None, true, length, drop, is_some, IfOk, IfSome, IsTrue, IsFalse};
ghost use Rattle.hier_types.specs.Settings.{IsWithin};
ghost use Rattle.l2_segments.specs.Strings.{segments_of, room_of, string_of, without, with_texts, with_one_more, IsSound};

use crate::held::{Held, LINE_SEGMENTS, first_byte, segments_of};
use crate::slide::{index_of, segments_in, start_for};
use arrayvec::ArrayVec;
use byte_parts::{read_part, write_part};
use hier_types::{LINE_BYTES, NoMemory};
use std::alloc::Global;
use std::marker::Model;

/// Strings at most: under two tags for each of 16 lines.
const MOST_STRINGS: usize = 32;

/// Strings of 1 to 64 bytes, each under a tag of its own, in the bytes of so many whole lines. A string takes whole
/// segments of 8 bytes, in a row. The strings stand in the order in which they were put there.
#[derive(Drop)]
pub struct Segments {
    ways: u32,
    // The bytes of the lines.
    store: Vec<u8>,
    // One behind the other, at rising segments.
    held: ArrayVec<Held, MOST_STRINGS>,
}

impl Model for Segments {
    ghost use Rattle.l2_segments.specs.Strings.{Strings};
    ghost use Rattle.l2_segments.specs.Held.{texts_of, IsStored};

    ghost Value = { Strings };

    ghost view = { λ a. record { ways = a.ways; texts = texts_of a.store.items a.held.items } };

    ghost invariant = { λ a. IsStored a.ways a.store.items a.held.items };
}

impl Segments {
    /// No string, in the room of so many lines, 1 to 16.
    pub fn new(alloc: Global, ways: u32) -> Result<Segments, NoMemory>
        requires { IsWithin 1 16 ways }
        ensures { IfOk result (λ made. made ≡ record { ways = ways; texts = [] }) }
    {
        let store = vec![in alloc; 0; (LINE_BYTES * ways) as usize]?;
        Ok(Segments {
            ways,
            store,
            held: ArrayVec::new(),
        })
    }

    /// How many segments are free, wherever they are.
    pub fn room(&self) -> u32
        ensures room { result ≡ room_of self.now }
        ensures sound { IsSound self.now }
    {
        LINE_SEGMENTS * self.ways - segments_in(&self.held)
    }

    /// Puts a string of 1 to 64 bytes under a tag that is not used, and tells whether enough segments are free for it.
    pub fn place(&mut self, tag: u8, bytes: &[u8]) -> bool
        requires tag { tag < 2 * self.old.ways }
        requires unused { string_of self.old.texts tag ≡ None }
        requires some { 1 ≤ length bytes.now }
        requires most { length bytes.now ≤ 64 }
        ensures fits { IsTrue result ↔ (segments_of (length bytes.now) ≤ room_of self.old) }
        ensures placed { IsTrue result → self.new ≡ with_texts self.old (with_one_more self.old.texts tag bytes.now) }
        ensures unchanged { IsFalse result → self.new ≡ self.old }

        // By tags: the string stands under its own, and each other string as before.
        ensures there { IsTrue result → string_of self.new.texts tag ≡ Some bytes.now }
        ensures others { (other : ℕ) → other ≢ tag → string_of self.new.texts other ≡ string_of self.old.texts other }
    {
        let segments = segments_of(bytes.len());
        if segments > self.room() {
            return false;
        }
        let start = start_for(&mut self.store, &mut self.held, segments);
        let string = Held {
            tag,
            start,
            len: bytes.len() as u8,
        };
        write_part(&mut self.store, first_byte(start), bytes);
        self.held.push(string);
        true
    }

    /// Gives up the string under a tag.
    pub fn remove(&mut self, tag: u8)
        requires { is_some (string_of self.old.texts tag) ≡ true }
        ensures after { self.new ≡ with_texts self.old (without self.old.texts tag) }

        // By tags: none stands under this one, each other string as before, and the segments of this one are free.
        ensures absent { string_of self.new.texts tag ≡ None }
        ensures others { (other : ℕ) → other ≢ tag → string_of self.new.texts other ≡ string_of self.old.texts other }
        ensures freed { IfSome (string_of self.old.texts tag)
            (λ bytes. room_of self.new ≡ room_of self.old + segments_of (length bytes)) }
    {
        let index = index_of(&self.held, tag);
        self.held.remove(index);
    }

    /// Copies the string under a tag to the front of a line, and tells how many bytes it has.
    pub fn get(&self, tag: u8, into: &mut [u8; 64]) -> u8
        requires { is_some (string_of self.now.texts tag) ≡ true }
        ensures { IfSome (string_of self.now.texts tag)
            (λ bytes. (result ≡ length bytes) × (into.new ≡ bytes ++ drop (length bytes) into.old)) }
    {
        let string = self.held[index_of(&self.held, tag)];
        let at = first_byte(string.start);
        read_part(&self.store, at, string.len as usize, into);
        string.len
    }
}
