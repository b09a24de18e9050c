// What a program writes to.
ghost use Rattle.std.specs.Prelude.{◌≡◌, List, ℕ, Option, Some, None, [], IfOk, IsOk, OnOk, OnErr};
ghost use Rattle.std.specs.Io.KnownBytes.{Appends};
ghost use Rattle.hier_types.specs.Causes.{HasCause};
ghost use Rattle.hier_types.specs.Outside.{AppendsFront};
ghost use Rattle.hier_types.specs.Sinks.{AppendsOrFails, listed_count};

use crate::faults::{Failed, NoMemory};
use std::alloc::Global;
use std::marker::Model;

/// A stream of bytes to write. It tells what it was given, or it does not.
pub trait Sink {
    /// The bytes that it was given, where it tells them.
    ghost written: { Self → Option (List ℕ) };

    /// How often it failed. It never falls.
    ghost faults: { Self → ℕ };

    /// Appends all the bytes. After `Failed` a front of them was appended.
    fn write(&mut self, bytes: &[u8]) -> Result<(), Failed>
        ensures ok { OnOk result (Appends (written self.old) (written self.new) bytes.now) }
        ensures err { OnErr result (AppendsFront (written self.old) (written self.new) bytes.now) }
        ensures cause { HasCause (faults self.old) (faults self.new) result };
}

/// Drops what it is given, and never fails.
#[derive(Drop)]
pub struct NullSink;

impl Sink for NullSink {
    ghost written = { λ _. None };

    ghost faults = { λ _. 0 };

    fn write(&mut self, _bytes: &[u8]) -> Result<(), Failed>
        ensures never { IsOk result }
        ensures ok { OnOk result (Appends None None _bytes.now) }
        ensures err { OnErr result (AppendsFront None None _bytes.now) }
        ensures cause { HasCause 0 0 result }
    {
        Ok(())
    }
}

/// Keeps what it is given in memory, up to its room of so many bytes. A call that is listed by its number, from 0,
/// appends at most so many bytes and fails; one that finds no room for all its bytes appends what fits and fails.
#[derive(Drop)]
pub struct BytesSink {
    bytes: Vec<u8>,
    room: usize,
    fail: Vec<(u64, usize)>,
    calls: u64,
    faults: u64,
}

impl Model for BytesSink {
    ghost use Rattle.std.specs.Prelude.{◌≤◌, vec_capacity, vec_len};
    ghost use Rattle.hier_types.specs.Sinks.{Kept};

    ghost Value = { Kept };

    ghost view = { λ s. record { bytes = s.bytes.items; room = s.room; fail = s.fail.items; calls = s.calls; faults = s.faults } };

    // All memory is there from the beginning.
    ghost invariant = { λ s. (vec_len s.bytes ≤ s.room) × (s.room ≤ vec_capacity s.bytes) };
}

impl BytesSink {
    /// An empty sink. Of two entries of `fail` with one call number the first counts.
    pub fn new(alloc: Global, room: usize, fail: Vec<(u64, usize)>) -> Result<Self, NoMemory>
        ensures { IfOk result (λ sink. sink ≡ record { bytes = []; room = room; fail = fail.items; calls = 0; faults = 0 }) }
    {
        Ok(BytesSink {
            bytes: Vec::with_capacity(alloc, room)?,
            room,
            fail,
            calls: 0,
            faults: 0,
        })
    }

    /// The bytes that it was given.
    pub fn bytes(&self) -> &[u8]
        ensures { result.now ≡ self.now.bytes }
    {
        &self.bytes
    }
}

/// How many bytes the call of this number may append before it fails, if it is listed.
fn listed(fail: &[(u64, usize)], call: u64) -> Option<usize>
    ensures { result ≡ listed_count fail.now call }
{
    for (number, count) in fail {
        if *number == call {
            return Some(*count);
        }
    }
    None
}

impl Sink for BytesSink {
    ghost written = { λ s. Some s.bytes };

    ghost faults = { λ s. s.faults };

    fn write(&mut self, bytes: &[u8]) -> Result<(), Failed>
        ensures ok { OnOk result (Appends (Some self.old.bytes) (Some self.new.bytes) bytes.now) }
        ensures err { OnErr result (AppendsFront (Some self.old.bytes) (Some self.new.bytes) bytes.now) }
        ensures cause { HasCause self.old.faults self.new.faults result }
        ensures exact { AppendsOrFails self.old bytes.now result self.new }
    {
        let limit = listed(&self.fail, self.calls);
        self.calls = self.calls.saturating_add(1);
        let free = self.room - self.bytes.len();
        let count = bytes.len().min(free).min(limit.unwrap_or(usize::MAX));
        if self.bytes.extend_from_slice(&bytes[..count]).is_err() {
            unreachable!();
        }
        if limit.is_some() || count < bytes.len() {
            self.faults = self.faults.saturating_add(1);
            return Err(Failed);
        }
        Ok(())
    }
}
