// Sets of lines in bounded room.
ghost use Rattle.std.specs.Prelude.{◌≡◌, ◌<◌, ◌≤◌, ◌*◌, ◌%◌, ℕ, [], true, false, Some, None, length, is_some, replicate, IfOk, IfNone, MatchOption};
ghost use Rattle.hier_types.specs.Settings.{IsWithin, IsPowerOfTwo};
ghost use Rattle.line_codec.specs.Slots.{size_under};
ghost use Rattle.recency.specs.Uses.{last_of};
ghost use Rattle.recency.specs.Kept.{without, entry_of, touched, last_dirty};
ghost use Rattle.recency.specs.Levels.{set_at, set_of, with_set, kept_of, IsMasked};
ghost use Rattle.recency.specs.Steps.{next_dirty, with_clean};
ghost use Rattle.l2_cache.specs.PackedSet.{kept_sets};
ghost use Rattle.l2_cache.specs.Room.{segments, segments_sum, has_space, leaver};
ghost use Rattle.l2_cache.specs.Turns.{in_front};

use crate::packed_set::PackedSet;
use hier_types::{Codec, Line, NoMemory};
use line_codec::size;
use recency::Entry;
use std::alloc::Global;
use std::marker::Model;

/// Sets with a tag for each line that they may keep, and four segments of 8 bytes for each tag. A line takes as many
/// segments as its size under the codec needs.
#[derive(Drop)]
pub(crate) struct RoomSets {
    codec: Codec,
    tags: u32,
    // One less than the number of sets: the bits of a set's index.
    mask: u32,
    sets: Vec<PackedSet>,
}

impl Model for RoomSets {
    ghost use Rattle.l2_cache.specs.PackedSet.{kept_sets};
    ghost use Rattle.l2_cache.specs.SecondLevel.{Rooms, AreRooms};

    ghost Value = { Rooms };

    ghost view = { λ a. record { codec = a.codec; sets = kept_sets a.sets.items } };

    ghost invariant = { λ a. AreRooms a.codec a.tags a.mask a.sets.items };
}

/// The segments that a line takes.
fn segments_of(codec: Codec, bytes: &Line) -> u32
    ensures count { result ≡ segments (size_under codec) bytes.now }
    ensures most { result ≤ 8 }
{
    (size(codec, bytes) as u32 + 7) / 8
}

/// So many sets with no line.
fn empty_sets(alloc: Global, codec: Codec, sets: u32, ways: u32) -> Result<Vec<PackedSet>, NoMemory>
    requires { IsWithin 1 16 ways }
    ensures { IfOk result (λ made. made.items ≡ replicate sets (record { codec = codec; kept = record { ways = 2 * ways; lines = [] } })) }
{
    let mut made = Vec::with_capacity(alloc, sets as usize)?;
    for count in 0..sets {
        made.push(PackedSet::new(alloc, codec, ways)?)?;
    }
    Ok(made)
}

/// The index of a line's set.
fn index_of(sets: &Vec<PackedSet>, mask: u32, line: u32) -> u32
    requires { IsMasked (kept_sets sets.now.items) mask }
    ensures index { result ≡ line % length sets.now.items }
    ensures inside { result < length sets.now.items }
{
    line & mask
}

/// The lines of a set but one: how many they are, and the segments that they take.
#[derive(Drop)]
struct Others {
    count: u32,
    segments: u32,
}

impl RoomSets {
    /// Sets with no line: `sets` of them, a power of two up to 4,096, with the room of `ways` whole lines, 1 to 16, and
    /// twice as many tags.
    pub(crate) fn new(
        alloc: Global,
        codec: Codec,
        sets: u32,
        ways: u32,
    ) -> Result<RoomSets, NoMemory>
        requires sets { IsPowerOfTwo 4096 sets }
        requires ways { IsWithin 1 16 ways }
        ensures { IfOk result (λ made. made ≡ record { codec = codec; sets = replicate sets (record { ways = 2 * ways; lines = [] }) }) }
    {
        Ok(RoomSets {
            codec,
            tags: 2 * ways,
            mask: sets - 1,
            sets: empty_sets(alloc, codec, sets, ways)?,
        })
    }

    /// The number of sets.
    pub(crate) fn count(&self) -> u32
        ensures { result ≡ length self.now.sets }
    {
        self.mask + 1
    }

    /// Copies the bytes of a line, and tells whether it is kept. The order of use stays.
    pub(crate) fn copy_of(&self, line: u32, into: &mut Line) -> bool
        ensures { MatchOption (kept_of self.now.sets line) ((result ≡ false) × (into.new ≡ into.old)) (λ e. (result ≡ true) × (into.new ≡ e.bytes)) }
    {
        let index = index_of(&self.sets, self.mask, line);
        self.sets[index as usize].copy_of(line, into)
    }

    /// Whether the line is kept. The order of use stays.
    pub(crate) fn keeps(&self, line: u32) -> bool
        ensures { result ≡ is_some (kept_of self.now.sets line) }
    {
        let index = index_of(&self.sets, self.mask, line);
        self.sets[index as usize].keeps(line)
    }

    /// Whether the line is kept. It becomes the most recent of its set.
    pub(crate) fn touch(&mut self, line: u32) -> bool
        ensures found { result ≡ is_some (kept_of self.old.sets line) }
        ensures after { self.new ≡ record { codec = self.old.codec; sets = with_set self.old.sets line (touched (set_of self.old.sets line).lines line) } }
    {
        let index = index_of(&self.sets, self.mask, line);
        self.sets[index as usize].touch(line)
    }

    /// The lines of the line's set but itself.
    fn others(&self, line: u32) -> Others
        ensures count { result.count ≡ length (without (set_of self.now.sets line).lines line) }
        ensures segments { result.segments ≡ segments_sum (size_under self.now.codec) (without (set_of self.now.sets line).lines line) }
        ensures few { result.segments ≤ 128 }
    {
        let index = index_of(&self.sets, self.mask, line);
        let set = &self.sets[index as usize];
        let count = set.len();
        let taken = 4 * self.tags - set.room();
        match set.entry(line) {
            Some(old) => Others {
                count: count - 1,
                segments: taken - segments_of(self.codec, &old.bytes),
            },
            None => Others {
                count,
                segments: taken,
            },
        }
    }

    /// Whether there is room for these bytes of a line beside the other lines of its set.
    fn has_space(&self, line: u32, bytes: &Line) -> bool
        ensures test { result ≡ has_space (size_under self.now.codec) (set_of self.now.sets line).ways bytes.now (without (set_of self.now.sets line).lines line) }
        ensures alone { last_of (without (set_of self.now.sets line).lines line) ≡ None → result ≡ true }
    {
        let others = self.others(line);
        let needed = segments_of(self.codec, bytes);
        others.count < self.tags && needed + others.segments <= 4 * self.tags
    }

    /// The line that leaves next, where these bytes are to be kept of a line.
    pub(crate) fn leaver(&self, line: u32, bytes: &Line) -> Option<Entry>
        ensures leaver { result ≡ leaver (size_under self.now.codec) (set_of self.now.sets line) line bytes.now }
        ensures room { IfNone result (has_space (size_under self.now.codec) (set_of self.now.sets line).ways bytes.now (without (set_of self.now.sets line).lines line) ≡ true) }
    {
        if self.has_space(line, bytes) {
            return None;
        }
        let index = index_of(&self.sets, self.mask, line);
        self.sets[index as usize].oldest_other(line)
    }

    /// Another line leaves the set of a line.
    pub(crate) fn take_out(&mut self, line: u32, entry: &Entry)
        requires { entry_of (set_of self.old.sets line).lines entry.now.line ≡ Some entry.now }
        ensures { self.new ≡ record { codec = self.old.codec; sets = with_set self.old.sets line (without (set_of self.old.sets line).lines entry.now.line) } }
    {
        let index = index_of(&self.sets, self.mask, line);
        self.sets[index as usize].remove(entry.line);
    }

    /// Puts an entry in front of its set, in place of an older one of its line.
    pub(crate) fn put_front(&mut self, entry: &Entry)
        requires { has_space (size_under self.old.codec) (set_of self.old.sets entry.now.line).ways entry.now.bytes (without (set_of self.old.sets entry.now.line).lines entry.now.line) ≡ true }
        ensures { self.new ≡ record { codec = self.old.codec; sets = in_front self.old.sets entry.now } }
    {
        let index = index_of(&self.sets, self.mask, entry.line);
        self.sets[index as usize].put_front(entry);
    }

    /// The least recent dirty line of a set.
    pub(crate) fn last_dirty(&self, set: u32) -> Option<Entry>
        requires { set < length self.now.sets }
        ensures { result ≡ last_dirty (set_at self.now.sets set).lines }
    {
        self.sets[set as usize].last_dirty()
    }

    /// The dirty line that a flush writes next, where the sets below `from` have none.
    pub(crate) fn next_dirty(&self, from: u32) -> Option<Entry>
        requires { (i : ℕ) → i < from → last_dirty (set_at self.now.sets i).lines ≡ None }
        ensures { result ≡ next_dirty self.now.sets }
    {
        for set in from..self.mask + 1 {
            if let Some(entry) = self.sets[set as usize].last_dirty() {
                return Some(entry);
            }
        }
        None
    }

    /// The number of a line's set.
    pub(crate) fn set_number(&self, line: u32) -> u32
        ensures { result ≡ line % length self.now.sets }
    {
        index_of(&self.sets, self.mask, line)
    }

    /// The line is clean from now on, where it is kept.
    pub(crate) fn clean(&mut self, line: u32)
        ensures { self.new ≡ record { codec = self.old.codec; sets = with_clean self.old.sets line } }
    {
        let index = index_of(&self.sets, self.mask, line);
        self.sets[index as usize].clean(line);
    }
}
