// A set of packed lines.
ghost use Rattle.std.specs.Prelude.{◌≡◌, ◌<◌, ◌≤◌, ◌+◌, ◌*◌, [], ◌∷◌, false, true, None, length, is_some, IfOk, MatchOption};
ghost use Rattle.hier_types.specs.Settings.{IsWithin};
ghost use Rattle.line_codec.specs.Slots.{size_under};
ghost use Rattle.recency.specs.Uses.{last_of};
ghost use Rattle.recency.specs.Kept.{entry_of, without, touched, last_dirty, clean_in};
ghost use Rattle.recency.specs.Slots.{entry_at};
ghost use Rattle.l2_cache.specs.Packed.{line_at};
ghost use Rattle.l2_cache.specs.PackedSet.{holding};
ghost use Rattle.l2_cache.specs.Room.{segments, segments_sum};

use crate::packed_lines::PackedLines;
use hier_types::{Codec, Line, NoMemory};
use recency::{Entry, Order, Tag, last_dirty_slot, mark, set_tag, slot_of, slot_to_fill, tag_of};
use std::alloc::Global;
use std::marker::Model;

/// At most `ways` lines, in the order of their use. Each stands in a slot as long as it is kept, and its bytes are
/// packed into segments.
#[derive(Drop)]
pub(crate) struct PackedSet {
    ways: u32,
    order: Order,
    tags: Vec<Tag>,
    lines: PackedLines,
}

impl Model for PackedSet {
    ghost use Rattle.recency.specs.Slots.{entries_of};
    ghost use Rattle.l2_cache.specs.PackedSet.{KeptUnder, IsPacked};

    ghost Value = { KeptUnder };

    ghost view = { λ a. record { codec = a.lines.codec; kept = record { ways = a.ways; lines = entries_of a.tags.items a.lines.lines a.order.slots } } };

    ghost invariant = { λ a. IsPacked a.ways a.order a.tags.items a.lines };
}

/// What a slot keeps.
fn entry_in(tags: &[Tag], lines: &PackedLines, slot: u32) -> Entry
    requires tag { slot < length tags.now }
    requires whole { length (line_at lines.now.lines slot) ≡ 64 }
    ensures { result ≡ entry_at tags.now lines.now.lines slot }
{
    let tag = tag_of(tags, slot);
    let mut bytes = [0; 64];
    lines.copy_out(slot, &mut bytes);
    Entry {
        line: tag.line,
        bytes,
        dirty: tag.dirty,
    }
}

impl PackedSet {
    /// No line, with the room of `ways` whole lines, 1 to 16, and twice as many tags.
    pub(crate) fn new(alloc: Global, codec: Codec, ways: u32) -> Result<PackedSet, NoMemory>
        requires { IsWithin 1 16 ways }
        ensures { IfOk result (λ set. set ≡ record { codec = codec; kept = record { ways = 2 * ways; lines = [] } }) }
    {
        let order = Order::new(alloc, 2 * ways)?;
        let unused = Tag {
            line: 0,
            dirty: false,
        };
        let tags = vec![in alloc; unused; 2 * ways as usize]?;
        let lines = PackedLines::new(alloc, codec, ways)?;
        Ok(PackedSet {
            ways: 2 * ways,
            order,
            tags,
            lines,
        })
    }

    /// Whether the line is kept. It becomes the most recent.
    pub(crate) fn touch(&mut self, line: u32) -> bool
        ensures found { result ≡ is_some (entry_of self.old.kept.lines line) }
        ensures after { self.new ≡ holding self.old (touched self.old.kept.lines line) }
    {
        let Some(slot) = slot_of(&self.order, &self.tags, self.ways, line) else {
            return false;
        };
        self.order.use_slot(slot);
        true
    }

    /// Copies the bytes of a line, and tells whether it is kept. The order of use stays.
    pub(crate) fn copy_of(&self, line: u32, into: &mut Line) -> bool
        ensures { MatchOption (entry_of self.now.kept.lines line) ((result ≡ false) × (into.new ≡ into.old)) (λ e. (result ≡ true) × (into.new ≡ e.bytes)) }
    {
        let Some(slot) = slot_of(&self.order, &self.tags, self.ways, line) else {
            return false;
        };
        self.lines.copy_out(slot, into);
        true
    }

    /// Whether the line is kept. The order of use stays.
    pub(crate) fn keeps(&self, line: u32) -> bool
        ensures { result ≡ is_some (entry_of self.now.kept.lines line) }
    {
        let Some(_) = slot_of(&self.order, &self.tags, self.ways, line) else {
            return false;
        };
        true
    }

    /// What is kept of a line. The order of use stays.
    pub(crate) fn entry(&self, line: u32) -> Option<Entry>
        ensures { result ≡ entry_of self.now.kept.lines line }
    {
        let Some(slot) = slot_of(&self.order, &self.tags, self.ways, line) else {
            return None;
        };
        Some(entry_in(&self.tags, &self.lines, slot))
    }

    /// How many lines are kept.
    pub(crate) fn len(&self) -> u32
        ensures { result ≡ length self.now.kept.lines }
    {
        self.order.len()
    }

    /// The segments of 8 bytes that are free.
    pub(crate) fn room(&self) -> u32
        ensures { result + segments_sum (size_under self.now.codec) self.now.kept.lines ≡ 4 * self.now.kept.ways }
    {
        self.lines.room()
    }

    /// The least recent line but this one.
    pub(crate) fn oldest_other(&self, line: u32) -> Option<Entry>
        ensures { result ≡ last_of (without self.now.kept.lines line) }
    {
        let Some(last) = self.order.last() else {
            return None;
        };
        if tag_of(&self.tags, last).line != line {
            return Some(entry_in(&self.tags, &self.lines, last));
        }
        let Some(slot) = self.order.before(last) else {
            return None;
        };
        Some(entry_in(&self.tags, &self.lines, slot))
    }

    /// The line is no longer kept.
    pub(crate) fn remove(&mut self, line: u32)
        ensures after { self.new ≡ holding self.old (without self.old.kept.lines line) }
        ensures absent { entry_of self.new.kept.lines line ≡ None }
    {
        let Some(slot) = slot_of(&self.order, &self.tags, self.ways, line) else {
            return;
        };
        self.lines.release(slot);
        self.order.drop_slot(slot);
    }

    /// Puts an entry in front, in place of an older one of its line, where there is room.
    pub(crate) fn put_front(&mut self, entry: &Entry)
        requires tag { length (without self.old.kept.lines entry.now.line) < self.old.kept.ways }
        requires room { segments (size_under self.old.codec) entry.now.bytes + segments_sum (size_under self.old.codec) (without self.old.kept.lines entry.now.line) ≤ 4 * self.old.kept.ways }
        ensures { self.new ≡ holding self.old (entry.now ∷ without self.old.kept.lines entry.now.line) }
    {
        self.remove(entry.line);
        self.fill(entry.line, &entry.bytes, entry.dirty);
    }

    /// Puts a line in front that is not kept, in a slot that is not in use.
    fn fill(&mut self, line: u32, bytes: &Line, dirty: bool)
        requires absent { entry_of self.old.kept.lines line ≡ None }
        requires tag { length self.old.kept.lines < self.old.kept.ways }
        requires room { segments (size_under self.old.codec) bytes.now + segments_sum (size_under self.old.codec) self.old.kept.lines ≤ 4 * self.old.kept.ways }
        ensures { self.new ≡ holding self.old (record { line = line; bytes = bytes.now; dirty = dirty } ∷ self.old.kept.lines) }
    {
        let slot = slot_to_fill(&self.order, self.ways);
        set_tag(&mut self.tags, slot, line, dirty);
        self.lines.put(slot, bytes);
        self.order.use_slot(slot);
    }

    /// The least recent dirty line.
    pub(crate) fn last_dirty(&self) -> Option<Entry>
        ensures { result ≡ last_dirty self.now.kept.lines }
    {
        let Some(slot) = last_dirty_slot(&self.order, &self.tags) else {
            return None;
        };
        Some(entry_in(&self.tags, &self.lines, slot))
    }

    /// The line is clean from now on, where it is kept.
    pub(crate) fn clean(&mut self, line: u32)
        ensures { self.new ≡ holding self.old (clean_in self.old.kept.lines line) }
    {
        let Some(slot) = slot_of(&self.order, &self.tags, self.ways, line) else {
            return;
        };
        mark(&mut self.tags, slot, false);
    }
}
