// The second level over any layer.
ghost use Rattle.std.specs.Prelude.{◌≡◌, ◌<◌, ◌*◌, [], true, false, Some, None, Ok, OnOk, OnErr, IfOk, is_some, length, replicate, slice_get, slice_set};
ghost use Rattle.hier_types.specs.Calls.{Makes};
ghost use Rattle.hier_types.specs.Causes.{raised, Refuses};
ghost use Rattle.hier_types.specs.Settings.{IsWithin, IsPowerOfTwo};
ghost use Rattle.line_codec.specs.Slots.{size_under};
ghost use Rattle.recency.specs.Kept.{without};
ghost use Rattle.recency.specs.Levels.{set_of, with_set, kept_of, KeepsUnder};
ghost use Rattle.recency.specs.Steps.{with_clean, Changes};
ghost use Rattle.l2_cache.specs.Room.{has_space, leaver};
ghost use Rattle.l2_cache.specs.SecondCalls.{SecondRead, SecondWrite, SecondCleans, SecondFlushes};
ghost use Rattle.l2_cache.specs.SecondLevel.{lines_of_second};
ghost use Rattle.l2_cache.specs.Turns.{MakesRoom, PutsInFront, WritesIfDirty, ReadMisses, ReadsSecond, raised_if, read_counted, next_set, turn_answer};

use crate::clean::Clean;
use crate::room_sets::RoomSets;
use hier_types::{Codec, Errand, L2Counts, Layer, Line, LineNo, NoMemory, NoSpace};
use recency::Entry;
use std::alloc::Global;
use std::marker::Model;

/// Sets of lines over a layer, in the room that their sizes under a codec need. A line that was changed here is written
/// below when it has to leave, by a turn of the cleaner or by a flush.
#[derive(Drop)]
pub struct L2<B: Layer> {
    below: B,
    rooms: RoomSets,
    cursor: u32,
    counts: L2Counts,
}

impl<B: Layer> Model for L2<B> {
    ghost use Rattle.l2_cache.specs.SecondLevel.{SecondLevel, IsSecondLevel};

    ghost Value = { SecondLevel B };

    ghost view = { λ a. record { below = a.below; codec = a.rooms.codec; sets = a.rooms.sets; cursor = a.cursor; counts = a.counts } };

    ghost invariant = { λ a. IsSecondLevel (B.content a.below) a.rooms.sets a.cursor };
}

/// Counts a call, and a hit where its line was kept.
fn count(calls: &mut u64, hits: &mut u64, hit: bool)
    ensures calls { calls.new ≡ raised calls.old }
    ensures hits { hits.new ≡ raised_if hit hits.old }
{
    *calls = calls.saturating_add(1);
    if hit {
        *hits = hits.saturating_add(1);
    }
}

impl<B: Layer> L2<B> {
    /// No line is kept, and the cleaner stands at set 0. There are `sets` sets, a power of two up to 4,096, with the room
    /// of `ways` whole lines each, 1 to 16, and twice as many tags. Where no memory is left, the layer is dropped.
    pub fn new(
        alloc: Global,
        below: B,
        codec: Codec,
        sets: u32,
        ways: u32,
    ) -> Result<L2<B>, NoMemory>
        requires sets { IsPowerOfTwo 4096 sets }
        requires ways { IsWithin 1 16 ways }
        ensures { IfOk result (λ level. level ≡ record { below = below; codec = codec; sets = replicate sets (record { ways = 2 * ways; lines = [] }); cursor = 0; counts = record { reads = 0; read_hits = 0; writes = 0; write_hits = 0 } }) }
    {
        // With their number a layer tells that its lines are whole.
        let _count = below.lines();
        let rooms = RoomSets::new(alloc, codec, sets, ways)?;
        let counts = L2Counts {
            reads: 0,
            read_hits: 0,
            writes: 0,
            write_hits: 0,
        };
        Ok(L2 {
            below,
            rooms,
            cursor: 0,
            counts,
        })
    }

    /// The layer below.
    pub fn below(&self) -> &B
        ensures { result.now ≡ self.now.below }
    {
        &self.below
    }

    /// The reads and writes so far, and how many of each found their line.
    pub fn counts(&self) -> L2Counts
        ensures { result ≡ self.now.counts }
    {
        self.counts
    }

    /// Lets the errand go once on the layer below, which it may change only where this level keeps no copy.
    pub fn below_do<E: Errand<B>>(&mut self, errand: &mut E)
        requires may { E.may_go errand.old self.old.below }
        requires keeps { (after : E) (below : B) → E.did_go errand.old self.old.below after below → KeepsUnder self.old.sets (B.content self.old.below) (B.content below) }
        ensures did { E.did_go errand.old self.old.below errand.new self.new.below }
        ensures codec { self.new.codec ≡ self.old.codec }
        ensures sets { self.new.sets ≡ self.old.sets }
        ensures cursor { self.new.cursor ≡ self.old.cursor }
        ensures counts { self.new.counts ≡ self.old.counts }
    {
        errand.go(&mut self.below);
        // With their number a layer tells that its lines are whole.
        let _count = self.below.lines();
    }

    /// Writes the least recent dirty line of the cleaner's set below, and marks it clean. Whatever comes of it, the next
    /// set has the next turn. No order of use and no kept line changes.
    pub fn clean_turn(&mut self) -> Clean
        ensures content { lines_of_second B.content self.new ≡ lines_of_second B.content self.old }
        ensures cause { Refuses (B.stops self.old.below) (B.stops self.new.below) (B.crowded self.new.below) (turn_answer result) }
        ensures did { SecondCleans B.did_read B.did_write self.old result self.new }
    {
        let set = self.cursor;
        self.move_on();
        let Some(entry) = self.rooms.last_dirty(set) else {
            return Clean::Nothing;
        };
        if let Err(refusal) = self.write_back(&entry) {
            return Clean::PutOff(refusal);
        }
        Clean::Done
    }

    /// The next set has the next turn of the cleaner.
    fn move_on(&mut self)
        ensures codec { self.new.codec ≡ self.old.codec }
        ensures cursor { self.new.cursor ≡ next_set self.old.cursor (length self.old.sets) }
        ensures counts { self.new.counts ≡ self.old.counts }
        ensures sets { self.new.sets ≡ self.old.sets }
        ensures below { self.new.below ≡ self.old.below }
    {
        self.cursor = if self.cursor + 1 == self.rooms.count() {
            0
        } else {
            self.cursor + 1
        };
    }

    /// Writes every dirty line below, by rising sets, least recent first. It stops at the first one that is refused. The
    /// lines that were written are clean then; which lines are kept, their order, the cursor and the counts stay. Where
    /// none was refused, the layer below has all lines.
    pub fn flush(&mut self) -> Result<(), NoSpace>
        ensures content { lines_of_second B.content self.new ≡ lines_of_second B.content self.old }
        ensures cause { Refuses (B.stops self.old.below) (B.stops self.new.below) (B.crowded self.new.below) result }
        ensures did { SecondFlushes B.did_read B.did_write self.old result self.new }
        ensures settled { OnOk result (B.content self.new.below ≡ lines_of_second B.content self.new) }
    {
        let mut from = 0;
        while let Some(entry) = self.rooms.next_dirty(from) {
            if let Err(refusal) = self.write_back(&entry) {
                return Err(refusal);
            }
            from = self.rooms.set_number(entry.line);
        }
        Ok(())
    }

    /// Writes a dirty line below, and marks it clean.
    fn write_back(&mut self, entry: &Entry) -> Result<(), NoSpace>
        requires { kept_of self.old.sets entry.now.line ≡ Some entry.now }
        ensures content { lines_of_second B.content self.new ≡ lines_of_second B.content self.old }
        ensures codec { self.new.codec ≡ self.old.codec }
        ensures cursor { self.new.cursor ≡ self.old.cursor }
        ensures counts { self.new.counts ≡ self.old.counts }
        ensures ok { OnOk result (self.new.sets ≡ with_clean self.old.sets entry.now.line) }
        ensures err { OnErr result (self.new.sets ≡ self.old.sets) }
        ensures cause { Refuses (B.stops self.old.below) (B.stops self.new.below) (B.crowded self.new.below) result }
        ensures did { B.did_write self.old.below entry.now.line entry.now.bytes result self.new.below }
    {
        if let Err(refusal) = self.below.write(LineNo(entry.line), &entry.bytes) {
            return Err(refusal);
        }
        self.rooms.clean(entry.line);
        Ok(())
    }

    /// Lets lines leave until there is room for these bytes of a line.
    fn make_room(&mut self, line: u32, bytes: &Line) -> Result<(), NoSpace>
        ensures content { lines_of_second B.content self.new ≡ lines_of_second B.content self.old }
        ensures codec { self.new.codec ≡ self.old.codec }
        ensures cursor { self.new.cursor ≡ self.old.cursor }
        ensures counts { self.new.counts ≡ self.old.counts }
        ensures cause { Refuses (B.stops self.old.below) (B.stops self.new.below) (B.crowded self.new.below) result }
        ensures room { OnOk result (has_space (size_under self.new.codec) (set_of self.new.sets line).ways bytes.now (without (set_of self.new.sets line).lines line) ≡ true) }
        ensures absent { kept_of self.old.sets line ≡ None → kept_of self.new.sets line ≡ None }
        ensures did { Makes B.did_read B.did_write self.old.below (Changes (MakesRoom (size_under self.old.codec) bytes.now) self.old.sets line result self.new.sets) self.new.below }
    {
        while let Some(entry) = self.rooms.leaver(line, bytes) {
            if let Err(refusal) = self.put_out(line, bytes, &entry) {
                return Err(refusal);
            }
        }
        Ok(())
    }

    /// The next line leaves. If it is dirty, it is first written below.
    fn put_out(&mut self, line: u32, bytes: &Line, entry: &Entry) -> Result<(), NoSpace>
        requires { leaver (size_under self.old.codec) (set_of self.old.sets line) line bytes.now ≡ Some entry.now }
        ensures content { lines_of_second B.content self.new ≡ lines_of_second B.content self.old }
        ensures codec { self.new.codec ≡ self.old.codec }
        ensures cursor { self.new.cursor ≡ self.old.cursor }
        ensures counts { self.new.counts ≡ self.old.counts }
        ensures ok { OnOk result (self.new.sets ≡ with_set self.old.sets line (without (set_of self.old.sets line).lines entry.now.line)) }
        ensures fewer { OnOk result (length (set_of self.new.sets line).lines < length (set_of self.old.sets line).lines) }
        ensures err { OnErr result (self.new.sets ≡ self.old.sets) }
        ensures cause { Refuses (B.stops self.old.below) (B.stops self.new.below) (B.crowded self.new.below) result }
        ensures did { WritesIfDirty B.did_write self.old.below entry.now result self.new.below }
    {
        if entry.dirty {
            if let Err(refusal) = self.below.write(LineNo(entry.line), &entry.bytes) {
                return Err(refusal);
            }
            self.rooms.take_out(line, entry);
            return Ok(());
        }
        self.rooms.take_out(line, entry);
        Ok(())
    }

    /// Puts a line in front, once there is room.
    fn put_in_front(&mut self, entry: &Entry) -> Result<(), NoSpace>
        requires inside { entry.now.line < length (lines_of_second B.content self.old) }
        requires full { length entry.now.bytes ≡ 64 }
        requires held { entry.now.dirty ≡ false → (slice_get (lines_of_second B.content self.old) entry.now.line ≡ Some entry.now.bytes) × (kept_of self.old.sets entry.now.line ≡ None) }
        ensures ok { OnOk result (lines_of_second B.content self.new ≡ slice_set (lines_of_second B.content self.old) entry.now.line entry.now.bytes) }
        ensures err { OnErr result (lines_of_second B.content self.new ≡ lines_of_second B.content self.old) }
        ensures codec { self.new.codec ≡ self.old.codec }
        ensures cursor { self.new.cursor ≡ self.old.cursor }
        ensures counts { self.new.counts ≡ self.old.counts }
        ensures cause { Refuses (B.stops self.old.below) (B.stops self.new.below) (B.crowded self.new.below) result }
        ensures did { Makes B.did_read B.did_write self.old.below (PutsInFront (size_under self.old.codec) self.old.sets entry.now result self.new.sets) self.new.below }
    {
        if let Err(refusal) = self.make_room(entry.line, &entry.bytes) {
            return Err(refusal);
        }
        self.rooms.put_front(entry);
        Ok(())
    }

    /// Reads a line that is kept. Nothing changes where it is not.
    fn hit(&mut self, line: LineNo, into: &mut Line) -> bool
        requires { line.0 < length (lines_of_second B.content self.old) }
        ensures content { lines_of_second B.content self.new ≡ lines_of_second B.content self.old }
        ensures codec { self.new.codec ≡ self.old.codec }
        ensures cursor { self.new.cursor ≡ self.old.cursor }
        ensures below { self.new.below ≡ self.old.below }
        ensures found { result ≡ is_some (kept_of self.old.sets line.0) }
        ensures bytes { result ≡ true → slice_get (lines_of_second B.content self.old) line.0 ≡ Some into.new }
        ensures counts { result ≡ true → self.new.counts ≡ read_counted true (Ok into.new) self.old.counts }
        ensures did { result ≡ true → ReadsSecond (size_under self.old.codec) self.old.sets line.0 (Ok into.new) self.new.sets [] }
        ensures same { result ≡ false → self.new ≡ self.old }
        ensures stays { result ≡ false → into.new ≡ into.old }
    {
        if !self.rooms.copy_of(line.0, into) {
            return false;
        }
        let _ = self.rooms.touch(line.0);
        count(&mut self.counts.reads, &mut self.counts.read_hits, true);
        true
    }

    /// Reads a line that is not kept.
    fn miss(&mut self, line: LineNo) -> Result<Line, NoSpace>
        requires inside { line.0 < length (lines_of_second B.content self.old) }
        requires absent { kept_of self.old.sets line.0 ≡ None }
        ensures ok { IfOk result (λ bytes. slice_get (lines_of_second B.content self.old) line.0 ≡ Some bytes) }
        ensures content { lines_of_second B.content self.new ≡ lines_of_second B.content self.old }
        ensures codec { self.new.codec ≡ self.old.codec }
        ensures cursor { self.new.cursor ≡ self.old.cursor }
        ensures counts { self.new.counts ≡ self.old.counts }
        ensures cause { Refuses (B.stops self.old.below) (B.stops self.new.below) (B.crowded self.new.below) result }
        ensures did { Makes B.did_read B.did_write self.old.below (ReadMisses (size_under self.old.codec) self.old.sets line.0 result self.new.sets) self.new.below }
    {
        let mut bytes: Line = [0; 64];
        if let Err(refusal) = self.below.read(line, &mut bytes) {
            return Err(refusal);
        }
        let entry = Entry {
            line: line.0,
            bytes,
            dirty: false,
        };
        if let Err(refusal) = self.put_in_front(&entry) {
            return Err(refusal);
        }
        Ok(bytes)
    }
}

impl<B: Layer> Layer for L2<B> {
    ghost content = { λ s. lines_of_second B.content s };

    ghost stops = { λ s. B.stops s.below };

    ghost crowded = { λ s n. B.crowded s.below n };

    ghost did_read = { SecondRead B.did_read B.did_write };

    ghost did_write = { SecondWrite B.did_read B.did_write };

    fn lines(&self) -> u32 {
        self.below.lines()
    }

    fn read(&mut self, line: LineNo, into: &mut Line) -> Result<(), NoSpace> {
        if self.hit(line, into) {
            return Ok(());
        }
        match self.miss(line) {
            Ok(bytes) => {
                *into = bytes;
                count(&mut self.counts.reads, &mut self.counts.read_hits, false);
                Ok(())
            }
            Err(refusal) => Err(refusal),
        }
    }

    fn write(&mut self, line: LineNo, from: &Line) -> Result<(), NoSpace> {
        let hit = self.rooms.keeps(line.0);
        let entry = Entry {
            line: line.0,
            bytes: *from,
            dirty: true,
        };
        if let Err(refusal) = self.put_in_front(&entry) {
            return Err(refusal);
        }
        count(&mut self.counts.writes, &mut self.counts.write_hits, hit);
        Ok(())
    }

    fn view(&self, line: LineNo, into: &mut Line) {
        if self.rooms.copy_of(line.0, into) {
            return;
        }
        self.below.view(line, into);
    }
}
