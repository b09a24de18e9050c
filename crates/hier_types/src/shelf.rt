// Where the files lie.
ghost use Rattle.std.specs.Prelude.{◌≡◌, List, ℕ, Option, Some, option_map};
ghost use Rattle.hier_types.specs.Outside.{Loads, file_of};
ghost use Rattle.hier_types.specs.Shelves.{LoadsOrFails, entries};

use crate::faults::ShelfFault;
use std::alloc::Global;
use std::marker::Model;

/// Files by name. It tells them, or it does not.
pub trait Shelf {
    /// The names and bytes of its files, where it tells them. Of two files with one name the first counts.
    ghost files: { Self → Option (List (List ℕ × List ℕ)) };

    /// How often it failed. It never falls.
    ghost faults: { Self → ℕ };

    /// The bytes of a file, of which there may be at most `limit`. No call changes the files.
    fn load(&mut self, alloc: Global, name: &str, limit: u64) -> Result<Vec<u8>, ShelfFault>
        ensures files { files self.new ≡ files self.old }
        ensures loads { Loads (λ file. file.items) (files self.old) (faults self.old) (faults self.new) name.now limit result };
}

/// A shelf in memory. A call that is listed by its number, from 0, fails and raises the count of faults; one for a
/// name that is not there fails and raises none.
#[derive(Drop)]
pub struct ListShelf {
    files: Vec<(String, Vec<u8>)>,
    fail: Vec<u64>,
    calls: u64,
    faults: u64,
}

impl Model for ListShelf {
    ghost use Rattle.hier_types.specs.Shelves.{Stored, entries};

    ghost Value = { Stored };

    ghost view = { λ s. record { files = entries s.files.items; fail = s.fail.items; calls = s.calls; faults = s.faults } };
}

impl ListShelf {
    /// A shelf of these names and bytes. Of two with one name the first counts.
    pub fn new(files: Vec<(String, Vec<u8>)>, fail: Vec<u64>) -> Self
        ensures { result ≡ record { files = entries files.items; fail = fail.items; calls = 0; faults = 0 } }
    {
        ListShelf {
            files,
            fail,
            calls: 0,
            faults: 0,
        }
    }
}

/// The bytes of the first file of that name.
fn find<'a>(files: &'a [(String, Vec<u8>)], name: &str) -> Option<&'a [u8]>
    ensures { option_map (λ bytes. bytes.now) result ≡ file_of (entries files.now) name.now }
{
    for (own, bytes) in files {
        if own.as_str() == name {
            return Some(bytes);
        }
    }
    None
}

impl Shelf for ListShelf {
    ghost files = { λ s. Some s.files };

    ghost faults = { λ s. s.faults };

    fn load(&mut self, alloc: Global, name: &str, limit: u64) -> Result<Vec<u8>, ShelfFault>
        ensures files { Some self.new.files ≡ Some self.old.files }
        ensures loads { Loads (λ file. file.items) (Some self.old.files) self.old.faults self.new.faults name.now limit result }
        ensures exact { LoadsOrFails (λ file. file.items) self.old name.now limit result self.new }
    {
        let failed = self.fail.contains(&self.calls);
        self.calls = self.calls.saturating_add(1);
        if failed {
            self.faults = self.faults.saturating_add(1);
            return Err(ShelfFault::Failed);
        }
        let Some(bytes) = find(&self.files, name) else {
            return Err(ShelfFault::Failed);
        };
        if bytes.len() as u64 > limit {
            return Err(ShelfFault::TooLong);
        }
        Ok(Vec::from_slice(alloc, bytes)?)
    }
}
