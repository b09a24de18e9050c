// The entries of the pages that were looked up last.
ghost use Rattle.std.specs.Prelude.{◌≡◌, ◌≤◌, [], true, false, length, is_some, IfOk, MatchOption};
ghost use Rattle.hier_types.specs.Settings.{IsWithin};
ghost use Rattle.recency.specs.Kept.{entry_of};
ghost use Rattle.meta_cache.specs.Entries.{looked, with_copy, forgotten, AreDistinct};

use hier_types::{Line, NoMemory, PageNo};
use recency::LineSet;
use std::alloc::Global;
use std::marker::Model;

/// At most so many entries, each a page and its chunk, in the order of the last looks.
#[derive(Drop)]
pub struct MetaCache {
    entries: LineSet,
}

impl Model for MetaCache {
    ghost use Rattle.recency.specs.Kept.{Kept};
    ghost use Rattle.meta_cache.specs.Entries.{IsCache};

    ghost Value = { Kept };

    ghost view = { λ a. a.entries };

    ghost invariant = { λ a. IsCache a.entries };
}

impl MetaCache {
    /// No entry, of 1 to 1,024.
    pub fn new(alloc: Global, entries: u32) -> Result<MetaCache, NoMemory>
        requires { IsWithin 1 1024 entries }
        ensures { IfOk result (λ made. made ≡ record { ways = entries; lines = [] }) }
    {
        Ok(MetaCache {
            entries: LineSet::new(alloc, entries)?,
        })
    }

    /// Whether the page has an entry. From now on it has one with this chunk, which is the most recent.
    pub fn look(&mut self, page: PageNo, chunk: &Line) -> bool
        ensures found { result ≡ is_some (entry_of self.old.lines page.0) }
        ensures after { self.new ≡ looked self.old page.0 chunk.now }
    {
        let number = page.0;
        if self.entries.touch(number) {
            self.entries.renew(number, chunk);
            return true;
        }
        self.entries.put_in(number, chunk);
        false
    }

    /// The page's chunk is another from now on, where it has an entry. The order of the entries stays.
    pub fn renew(&mut self, page: PageNo, chunk: &Line)
        ensures { self.new ≡ with_copy self.old page.0 chunk.now }
    {
        self.entries.renew(page.0, chunk);
    }

    /// The page has no entry from now on.
    pub fn forget(&mut self, page: PageNo)
        ensures { self.new ≡ forgotten self.old page.0 }
    {
        self.entries.forget(page.0);
    }

    /// Copies the page's chunk, and tells whether it has an entry. The order of the entries stays.
    pub fn copy(&self, page: PageNo, into: &mut Line) -> bool
        ensures copied { MatchOption (entry_of self.now.lines page.0) ((result ≡ false) × (into.new ≡ into.old)) (λ e. (result ≡ true) × (into.new ≡ e.bytes)) }
        ensures distinct { AreDistinct self.now.lines }
        ensures within { length self.now.lines ≤ self.now.ways }
    {
        self.entries.copy_of(page.0, into)
    }
}
