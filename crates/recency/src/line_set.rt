// A set of lines.
ghost use Rattle.std.specs.Prelude.{◌≡◌, ◌<◌, [], true, false, None, length, is_some, slice_get, slice_index, IfOk, IfSome, MatchOption};
ghost use Rattle.hier_types.specs.Settings.{IsWithin};
ghost use Rattle.recency.specs.Kept.{clean_entry, entry_of, touched, put_in, dirty_victim, clean_last, last_dirty, clean_in, overwritten, poked, renewed, without, with_lines};

use crate::entry::{Entry, Tag};
use crate::order::Order;
use crate::slots::{first_slot, last_dirty_slot, slot_of, slot_to_fill};
use crate::storage::{byte_in, copy_in, copy_out, entry_in, mark, set_byte_in, set_tag, tag_of};
use hier_types::{Line, NoMemory};
use std::alloc::Global;
use std::marker::Model;

/// At most `ways` lines, in the order of their use. Each stands in a slot as long as it is kept.
#[derive(Drop)]
pub struct LineSet {
    ways: u32,
    order: Order,
    tags: Vec<Tag>,
    bytes: Vec<Line>,
}

impl Model for LineSet {
    ghost use Rattle.recency.specs.Kept.{Kept};
    ghost use Rattle.recency.specs.Slots.{entries_of, IsStored};

    ghost Value = { Kept };

    ghost view = { λ a. record { ways = a.ways; lines = entries_of a.tags.items a.bytes.items a.order.slots } };

    ghost invariant = { λ a. IsStored a.ways a.order a.tags.items a.bytes.items };
}

impl LineSet {
    /// No line, of 1 to 1,024.
    pub fn new(alloc: Global, ways: u32) -> Result<LineSet, NoMemory>
        requires { IsWithin 1 1024 ways }
        ensures { IfOk result (λ set. set ≡ record { ways = ways; lines = [] }) }
    {
        let order = Order::new(alloc, ways)?;
        let unused = Tag {
            line: 0,
            dirty: false,
        };
        let tags = vec![in alloc; unused; ways as usize]?;
        let bytes = vec![in alloc; [0; 64]; ways as usize]?;
        Ok(LineSet {
            ways,
            order,
            tags,
            bytes,
        })
    }

    /// Whether the line is kept. It becomes the most recent.
    pub fn touch(&mut self, line: u32) -> bool
        ensures found { result ≡ is_some (entry_of self.old.lines line) }
        ensures after { self.new ≡ with_lines self.old (touched self.old.lines line) }
    {
        if self.is_first(line) {
            return true;
        }
        let Some(slot) = slot_of(&self.order, &self.tags, self.ways, line) else {
            return false;
        };
        self.order.use_slot(slot);
        true
    }

    /// Whether the line is the most recent.
    fn is_first(&self, line: u32) -> bool
        ensures first { result ≡ true → touched self.now.lines line ≡ self.now.lines }
        ensures found { result ≡ true → is_some (entry_of self.now.lines line) ≡ true }
    {
        match self.order.first() {
            Some(slot) => tag_of(&self.tags, slot).line == line,
            None => false,
        }
    }

    /// Copies the bytes of a line, and tells whether it is kept. The order of use stays.
    pub fn copy_of(&self, line: u32, into: &mut Line) -> bool
        ensures { MatchOption (entry_of self.now.lines line) ((result ≡ false) × (into.new ≡ into.old)) (λ e. (result ≡ true) × (into.new ≡ e.bytes)) }
    {
        let Some(slot) = slot_of(&self.order, &self.tags, self.ways, line) else {
            return false;
        };
        copy_out(&self.bytes, slot, into);
        true
    }

    /// Puts a clean line in front that is not kept, in place of the least recent where the set is full.
    pub fn put_in(&mut self, line: u32, bytes: &Line)
        requires { entry_of self.old.lines line ≡ None }
        ensures { self.new ≡ with_lines self.old (put_in self.old (clean_entry line bytes.now)) }
    {
        let slot = slot_to_fill(&self.order, self.ways);
        set_tag(&mut self.tags, slot, line, false);
        copy_in(&mut self.bytes, slot, bytes);
        self.order.use_slot(slot);
    }

    /// Changes the bytes of a line, where it is kept. Its place in the order of use and its mark stay.
    pub fn renew(&mut self, line: u32, copy: &Line)
        ensures { self.new ≡ with_lines self.old (renewed self.old.lines line copy.now) }
    {
        let Some(slot) = slot_of(&self.order, &self.tags, self.ways, line) else {
            return;
        };
        copy_in(&mut self.bytes, slot, copy);
    }

    /// The line leaves, where it is kept. The order of the others stays.
    pub fn forget(&mut self, line: u32)
        ensures { self.new ≡ with_lines self.old (without self.old.lines line) }
    {
        let Some(slot) = slot_of(&self.order, &self.tags, self.ways, line) else {
            return;
        };
        self.order.drop_slot(slot);
    }

    /// The line that is written below before another is put in: the least recent of a full set, if it is dirty.
    pub(crate) fn dirty_victim(&self) -> Option<Entry>
        ensures { result ≡ dirty_victim self.now }
    {
        if self.order.len() < self.ways {
            return None;
        }
        let Some(slot) = self.order.last() else {
            return None;
        };
        if !tag_of(&self.tags, slot).dirty {
            return None;
        }
        Some(entry_in(&self.tags, &self.bytes, slot))
    }

    /// The least recent line is clean from now on.
    pub(crate) fn clean_last(&mut self)
        ensures { self.new ≡ with_lines self.old (clean_last self.old.lines) }
    {
        let Some(slot) = self.order.last() else {
            return;
        };
        mark(&mut self.tags, slot, false);
    }

    /// The least recent dirty line.
    pub(crate) fn last_dirty(&self) -> Option<Entry>
        ensures { result ≡ last_dirty self.now.lines }
    {
        let Some(slot) = last_dirty_slot(&self.order, &self.tags) else {
            return None;
        };
        Some(entry_in(&self.tags, &self.bytes, slot))
    }

    /// The line is clean from now on, where it is kept.
    pub(crate) fn clean(&mut self, line: u32)
        ensures { self.new ≡ with_lines self.old (clean_in self.old.lines line) }
    {
        let Some(slot) = slot_of(&self.order, &self.tags, self.ways, line) else {
            return;
        };
        mark(&mut self.tags, slot, false);
    }

    /// A byte of the most recent line.
    pub(crate) fn first_byte(&self, offset: u32) -> u8
        requires some { 0 < length self.now.lines }
        requires inside { offset < 64 }
        ensures { IfSome (slice_get self.now.lines 0) (λ e. result ≡ slice_index e.bytes offset) }
    {
        let slot = first_slot(&self.order);
        byte_in(&self.bytes, slot, offset)
    }

    /// Changes a byte of the most recent line, which is dirty from now on.
    pub(crate) fn set_first_byte(&mut self, offset: u32, byte: u8)
        requires some { 0 < length self.old.lines }
        requires inside { offset < 64 }
        ensures { IfSome (slice_get self.old.lines 0) (λ e. self.new ≡ with_lines self.old (poked self.old.lines e.line offset byte)) }
    {
        let slot = first_slot(&self.order);
        mark(&mut self.tags, slot, true);
        set_byte_in(&mut self.bytes, slot, offset, byte);
    }

    /// Copies the bytes of the most recent line.
    pub(crate) fn copy_first(&self, into: &mut Line)
        requires { 0 < length self.now.lines }
        ensures { IfSome (slice_get self.now.lines 0) (λ e. into.new ≡ e.bytes) }
    {
        let slot = first_slot(&self.order);
        copy_out(&self.bytes, slot, into);
    }

    /// Changes the bytes of the most recent line, which is dirty from now on.
    pub(crate) fn set_first(&mut self, from: &Line)
        requires { 0 < length self.old.lines }
        ensures { IfSome (slice_get self.old.lines 0) (λ e. self.new ≡ with_lines self.old (overwritten self.old.lines e.line from.now)) }
    {
        let slot = first_slot(&self.order);
        mark(&mut self.tags, slot, true);
        copy_in(&mut self.bytes, slot, from);
    }
}
