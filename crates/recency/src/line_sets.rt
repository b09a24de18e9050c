// The sets of a level.
ghost use Rattle.std.specs.Prelude.{◌≡◌, ◌<◌, ◌%◌, ℕ, [], true, false, None, length, is_some, replicate, slice_get, slice_index, IfOk, IfSome, MatchOption};
ghost use Rattle.hier_types.specs.Settings.{IsWithin, IsPowerOfTwo};
ghost use Rattle.recency.specs.Kept.{touched, put_in, dirty_victim, clean_last, last_dirty, clean_entry, overwritten, poked, without};
ghost use Rattle.recency.specs.Levels.{set_at, set_of, with_set, kept_of, IsMasked};
ghost use Rattle.recency.specs.Steps.{next_dirty, with_clean};

use crate::entry::Entry;
use crate::line_set::LineSet;
use hier_types::{Line, NoMemory};
use std::alloc::Global;
use std::marker::Model;

/// A power of two of sets. A line is kept in the set of its number modulo the number of sets.
#[derive(Drop)]
pub struct LineSets {
    sets: Vec<LineSet>,
    mask: u32,
}

impl Model for LineSets {
    ghost use Rattle.std.specs.Prelude.{List};
    ghost use Rattle.recency.specs.Kept.{Kept};
    ghost use Rattle.recency.specs.Levels.{IsMasked};

    ghost Value = { List Kept };

    ghost view = { λ a. a.sets.items };

    ghost invariant = { λ a. IsMasked a.sets.items a.mask };
}

/// So many sets with no line.
fn empty_sets(alloc: Global, sets: u32, ways: u32) -> Result<Vec<LineSet>, NoMemory>
    requires { IsWithin 1 1024 ways }
    ensures { IfOk result (λ made. made.items ≡ replicate sets (record { ways = ways; lines = [] })) }
{
    let mut made = Vec::with_capacity(alloc, sets as usize)?;
    for count in 0..sets {
        made.push(LineSet::new(alloc, ways)?)?;
    }
    Ok(made)
}

/// The index of a line's set.
fn index_of(sets: &Vec<LineSet>, mask: u32, line: u32) -> u32
    requires { IsMasked sets.now.items mask }
    ensures index { result ≡ line % length sets.now.items }
    ensures inside { result < length sets.now.items }
{
    line & mask
}

impl LineSets {
    /// Sets with no line: `sets` of them, a power of two up to 4,096, of 1 to 1,024 lines each.
    pub fn new(alloc: Global, sets: u32, ways: u32) -> Result<LineSets, NoMemory>
        requires sets { IsPowerOfTwo 4096 sets }
        requires ways { IsWithin 1 1024 ways }
        ensures { IfOk result (λ made. made ≡ replicate sets (record { ways = ways; lines = [] })) }
    {
        Ok(LineSets {
            sets: empty_sets(alloc, sets, ways)?,
            mask: sets - 1,
        })
    }

    /// Whether the line is kept. It becomes the most recent of its set.
    pub fn touch(&mut self, line: u32) -> bool
        ensures found { result ≡ is_some (kept_of self.old line) }
        ensures after { self.new ≡ with_set self.old line (touched (set_of self.old line).lines line) }
    {
        let index = index_of(&self.sets, self.mask, line);
        self.sets[index as usize].touch(line)
    }

    /// Copies the bytes of a line, and tells whether it is kept. The order of use stays.
    pub fn copy_of(&self, line: u32, into: &mut Line) -> bool
        ensures { MatchOption (kept_of self.now line) ((result ≡ false) × (into.new ≡ into.old)) (λ e. (result ≡ true) × (into.new ≡ e.bytes)) }
    {
        let index = index_of(&self.sets, self.mask, line);
        self.sets[index as usize].copy_of(line, into)
    }

    /// Puts a clean line in front of its set that is not kept, in place of the least recent where the set is full.
    pub fn put_in(&mut self, line: u32, bytes: &Line)
        requires { kept_of self.old line ≡ None }
        ensures { self.new ≡ with_set self.old line (put_in (set_of self.old line) (clean_entry line bytes.now)) }
    {
        let index = index_of(&self.sets, self.mask, line);
        self.sets[index as usize].put_in(line, bytes);
    }

    /// The line of the same set that is to be written below before this one is put in.
    pub fn dirty_victim(&self, line: u32) -> Option<Entry>
        ensures { result ≡ dirty_victim (set_of self.now line) }
    {
        let index = index_of(&self.sets, self.mask, line);
        self.sets[index as usize].dirty_victim()
    }

    /// The least recent line of the same set is clean from now on.
    pub fn clean_last(&mut self, line: u32)
        ensures { self.new ≡ with_set self.old line (clean_last (set_of self.old line).lines) }
    {
        let index = index_of(&self.sets, self.mask, line);
        self.sets[index as usize].clean_last();
    }

    /// The dirty line that a flush writes next, where the sets below number `from` have none: by rising sets, least recent
    /// first.
    pub fn next_dirty(&self, from: u32) -> Option<Entry>
        requires { (i : ℕ) → i < from → last_dirty (set_at self.now i).lines ≡ None }
        ensures { result ≡ next_dirty self.now }
    {
        for set in from..self.mask + 1 {
            if let Some(entry) = self.sets[set as usize].last_dirty() {
                return Some(entry);
            }
        }
        None
    }

    /// The number of a line's set.
    pub fn set_number(&self, line: u32) -> u32
        ensures { result ≡ line % length self.now }
    {
        index_of(&self.sets, self.mask, line)
    }

    /// The line is clean from now on, where it is kept.
    pub fn clean(&mut self, line: u32)
        ensures { self.new ≡ with_clean self.old line }
    {
        let index = index_of(&self.sets, self.mask, line);
        self.sets[index as usize].clean(line);
    }

    /// The line leaves its set, where it is kept. The order of the others stays.
    pub fn forget(&mut self, line: u32)
        ensures { self.new ≡ with_set self.old line (without (set_of self.old line).lines line) }
    {
        let index = index_of(&self.sets, self.mask, line);
        self.sets[index as usize].forget(line);
    }

    /// A byte of the most recent line of the set of `line`.
    pub fn first_byte(&self, line: u32, offset: u32) -> u8
        requires some { 0 < length (set_of self.now line).lines }
        requires inside { offset < 64 }
        ensures { IfSome (slice_get (set_of self.now line).lines 0) (λ e. result ≡ slice_index e.bytes offset) }
    {
        let index = index_of(&self.sets, self.mask, line);
        self.sets[index as usize].first_byte(offset)
    }

    /// Changes a byte of the most recent line of the set of `line`, which is dirty from now on.
    pub fn set_first_byte(&mut self, line: u32, offset: u32, byte: u8)
        requires some { 0 < length (set_of self.old line).lines }
        requires inside { offset < 64 }
        ensures { IfSome (slice_get (set_of self.old line).lines 0) (λ e. self.new ≡ with_set self.old line (poked (set_of self.old line).lines e.line offset byte)) }
    {
        let index = index_of(&self.sets, self.mask, line);
        self.sets[index as usize].set_first_byte(offset, byte);
    }

    /// Copies the bytes of the most recent line of the set of `line`.
    pub fn copy_first(&self, line: u32, into: &mut Line)
        requires { 0 < length (set_of self.now line).lines }
        ensures { IfSome (slice_get (set_of self.now line).lines 0) (λ e. into.new ≡ e.bytes) }
    {
        let index = index_of(&self.sets, self.mask, line);
        self.sets[index as usize].copy_first(into);
    }

    /// Changes the bytes of the most recent line of the set of `line`, which is dirty from now on.
    pub fn set_first(&mut self, line: u32, from: &Line)
        requires { 0 < length (set_of self.old line).lines }
        ensures { IfSome (slice_get (set_of self.old line).lines 0) (λ e. self.new ≡ with_set self.old line (overwritten (set_of self.old line).lines e.line from.now)) }
    {
        let index = index_of(&self.sets, self.mask, line);
        self.sets[index as usize].set_first(from);
    }
}
