// The first level over any layer.
ghost use Rattle.std.specs.Prelude.{◌≡◌, ◌<◌, ◌*◌, [], true, false, Some, None, Ok, OnOk, OnErr, IfOk, length, replicate, slice_get, slice_set};
ghost use Rattle.hier_types.specs.Calls.{Makes};
ghost use Rattle.hier_types.specs.Causes.{raised, Refuses};
ghost use Rattle.hier_types.specs.Lines.{flatten};
ghost use Rattle.hier_types.specs.PortCalls.{IsHeld};
ghost use Rattle.hier_types.specs.Settings.{IsWithin, IsPowerOfTwo};
ghost use Rattle.recency.specs.Kept.{clean_last, dirty_victim, overwritten};
ghost use Rattle.recency.specs.Levels.{set_of, with_set, kept_of, FirstHas, KeepsUnder};
ghost use Rattle.recency.specs.Steps.{with_clean};
ghost use Rattle.l1_cache.specs.FirstCalls.{FirstTouch, FirstRead, FirstWrite, FirstPoke, FirstFlushes};
ghost use Rattle.l1_cache.specs.FirstLevel.{lines_of_first};
ghost use Rattle.l1_cache.specs.Touches.{Brings, Misses, CountedStep, Touches};

use hier_types::{
    Errand, Geometry, L1Counts, LINE_BYTES, Layer, Line, LineNo, NoMemory, NoSpace, Port,
};
use recency::{Entry, LineSets};
use std::alloc::Global;
use std::marker::Model;

/// Sets of lines over a layer. A line that was changed here is written below when another takes its place, or by a
/// flush. Every read and write of the layer's lines goes through a touch of the line.
#[derive(Drop)]
pub struct L1<B: Layer> {
    below: B,
    sets: LineSets,
    held: Option<u32>,
    counts: L1Counts,
    span: Geometry,
}

impl<B: Layer> Model for L1<B> {
    ghost use Rattle.l1_cache.specs.FirstLevel.{FirstLevel, IsFirstLevel};

    ghost Value = { FirstLevel B };

    ghost view = { λ a. record { below = a.below; sets = a.sets; held = a.held; counts = a.counts; span = a.span } };

    ghost invariant = { λ a. IsFirstLevel (B.content a.below) a.sets a.held a.span };
}

/// Counts one more. At the end of its 64 bits a count stays.
fn raise(count: &mut u64)
    ensures { count.new ≡ raised count.old }
{
    *count = count.saturating_add(1);
}

impl<B: Layer> L1<B> {
    /// No line is kept. The layer has the lines of the span; there are `sets` sets, a power of two up to 1,024, of 1 to
    /// 16 lines each. Where no memory is left, the layer is dropped.
    pub fn new(
        alloc: Global,
        below: B,
        geometry: Geometry,
        sets: u32,
        ways: u32,
    ) -> Result<L1<B>, NoMemory>
        requires size { length (B.content below) ≡ 64 * geometry.pages }
        requires sets { IsPowerOfTwo 1024 sets }
        requires ways { IsWithin 1 16 ways }
        ensures { IfOk result (λ level. level ≡ record { below = below; sets = replicate sets (record { ways = ways; lines = [] }); held = None; counts = record { hits = 0; misses = 0; write_backs = 0 }; span = geometry }) }
    {
        // With their number a layer tells that its lines are whole.
        let _count = below.lines();
        let sets = LineSets::new(alloc, sets, ways)?;
        let counts = L1Counts {
            hits: 0,
            misses: 0,
            write_backs: 0,
        };
        Ok(L1 {
            below,
            sets,
            held: None,
            counts,
            span: geometry,
        })
    }

    /// The layer below.
    pub fn below(&self) -> &B
        ensures { result.now ≡ self.now.below }
    {
        &self.below
    }

    /// The touches so far, and the lines that misses wrote below.
    pub fn counts(&self) -> L1Counts
        ensures { result ≡ self.now.counts }
    {
        self.counts
    }

    /// Lets the errand go once on the layer below, which it may change only where this level keeps no copy.
    pub fn below_do<E: Errand<B>>(&mut self, errand: &mut E)
        requires may { E.may_go errand.old self.old.below }
        requires keeps { (after : E) (below : B) → E.did_go errand.old self.old.below after below → KeepsUnder self.old.sets (B.content self.old.below) (B.content below) }
        ensures did { E.did_go errand.old self.old.below errand.new self.new.below }
        ensures sets { self.new.sets ≡ self.old.sets }
        ensures held { self.new.held ≡ self.old.held }
        ensures counts { self.new.counts ≡ self.old.counts }
        ensures span { self.new.span ≡ self.old.span }
    {
        errand.go(&mut self.below);
        // With their number a layer tells that its lines are whole.
        let _count = self.below.lines();
    }

    /// Writes every dirty line below, by rising sets, least recent first. It stops at the first one that is refused. The
    /// lines that were written are clean then; which lines are kept, their order, what is held and the counts stay. Where
    /// none was refused, the layer below has all lines.
    pub fn flush(&mut self) -> Result<(), NoSpace>
        ensures content { lines_of_first B.content self.new ≡ lines_of_first B.content self.old }
        ensures cause { Refuses (B.stops self.old.below) (B.stops self.new.below) (B.crowded self.new.below) result }
        ensures did { FirstFlushes B.did_read B.did_write self.old result self.new }
        ensures settled { OnOk result (B.content self.new.below ≡ lines_of_first B.content self.new) }
    {
        let mut from = 0;
        while let Some(entry) = self.sets.next_dirty(from) {
            if let Err(refusal) = self.write_back(&entry) {
                return Err(refusal);
            }
            from = self.sets.set_number(entry.line);
        }
        Ok(())
    }

    /// Writes a line below that is kept, and marks it clean.
    fn write_back(&mut self, entry: &Entry) -> Result<(), NoSpace>
        requires { kept_of self.old.sets entry.now.line ≡ Some entry.now }
        ensures content { lines_of_first B.content self.new ≡ lines_of_first B.content self.old }
        ensures held { self.new.held ≡ self.old.held }
        ensures counts { self.new.counts ≡ self.old.counts }
        ensures span { self.new.span ≡ self.old.span }
        ensures ok { OnOk result (self.new.sets ≡ with_clean self.old.sets entry.now.line) }
        ensures err { OnErr result (self.new.sets ≡ self.old.sets) }
        ensures cause { Refuses (B.stops self.old.below) (B.stops self.new.below) (B.crowded self.new.below) result }
        ensures did { B.did_write self.old.below entry.now.line entry.now.bytes result self.new.below }
    {
        if let Err(refusal) = self.below.write(LineNo(entry.line), &entry.bytes) {
            return Err(refusal);
        }
        self.sets.clean(entry.line);
        Ok(())
    }

    /// Makes the line the most recent of its set, and holds it. Where that is refused, no line is held.
    fn touch_line(&mut self, line: LineNo) -> Result<(), NoSpace>
        requires { line.0 < length (lines_of_first B.content self.old) }
        ensures content { lines_of_first B.content self.new ≡ lines_of_first B.content self.old }
        ensures held { OnOk result (IsHeld self.new.held line.0) }
        ensures none { OnErr result (self.new.held ≡ None) }
        ensures span { self.new.span ≡ self.old.span }
        ensures cause { Refuses (B.stops self.old.below) (B.stops self.new.below) (B.crowded self.new.below) result }
        ensures did { Makes B.did_read B.did_write self.old.below (Touches self.old.sets self.old.counts line.0 result self.new.sets self.new.counts) self.new.below }
    {
        if self.hit(line) {
            return Ok(());
        }
        self.miss(line)
    }

    /// Touches a line that is kept. Nothing changes where it is not.
    fn hit(&mut self, line: LineNo) -> bool
        ensures content { lines_of_first B.content self.new ≡ lines_of_first B.content self.old }
        ensures held { result ≡ true → IsHeld self.new.held line.0 }
        ensures below { self.new.below ≡ self.old.below }
        ensures span { self.new.span ≡ self.old.span }
        ensures did { result ≡ true → Touches self.old.sets self.old.counts line.0 (Ok tt) self.new.sets self.new.counts [] }
        ensures absent { result ≡ false → kept_of self.old.sets line.0 ≡ None }
        ensures same { result ≡ false → self.new ≡ self.old }
    {
        if self.held == Some(line.0) {
            raise(&mut self.counts.hits);
            return true;
        }
        if !self.sets.touch(line.0) {
            return false;
        }
        self.held = Some(line.0);
        raise(&mut self.counts.hits);
        true
    }

    /// Touches a line that is not kept.
    fn miss(&mut self, line: LineNo) -> Result<(), NoSpace>
        requires inside { line.0 < length (lines_of_first B.content self.old) }
        requires absent { kept_of self.old.sets line.0 ≡ None }
        ensures content { lines_of_first B.content self.new ≡ lines_of_first B.content self.old }
        ensures held { OnOk result (IsHeld self.new.held line.0) }
        ensures none { OnErr result (self.new.held ≡ None) }
        ensures span { self.new.span ≡ self.old.span }
        ensures cause { Refuses (B.stops self.old.below) (B.stops self.new.below) (B.crowded self.new.below) result }
        ensures did { Makes B.did_read B.did_write self.old.below (CountedStep Misses self.old.sets self.old.counts line.0 result self.new.sets self.new.counts) self.new.below }
    {
        self.held = None;
        let Some(victim) = self.sets.dirty_victim(line.0) else {
            return self.bring(line);
        };
        if let Err(refusal) = self.put_out(line, &victim) {
            return Err(refusal);
        }
        self.bring(line)
    }

    /// Writes the dirty victim of the line's set below, and marks it clean.
    fn put_out(&mut self, line: LineNo, victim: &Entry) -> Result<(), NoSpace>
        requires victim { dirty_victim (set_of self.old.sets line.0) ≡ Some victim.now }
        requires free { self.old.held ≡ None }
        ensures content { lines_of_first B.content self.new ≡ lines_of_first B.content self.old }
        ensures held { self.new.held ≡ None }
        ensures span { self.new.span ≡ self.old.span }
        ensures ok { OnOk result (self.new.sets ≡ with_set self.old.sets line.0 (clean_last (set_of self.old.sets line.0).lines)) }
        ensures err { OnErr result (self.new.sets ≡ self.old.sets) }
        ensures counted { OnOk result (self.new.counts ≡ record { hits = self.old.counts.hits; misses = self.old.counts.misses; write_backs = raised self.old.counts.write_backs }) }
        ensures uncounted { OnErr result (self.new.counts ≡ self.old.counts) }
        ensures cause { Refuses (B.stops self.old.below) (B.stops self.new.below) (B.crowded self.new.below) result }
        ensures did { B.did_write self.old.below victim.now.line victim.now.bytes result self.new.below }
    {
        if let Err(refusal) = self.below.write(LineNo(victim.line), &victim.bytes) {
            return Err(refusal);
        }
        self.sets.clean_last(line.0);
        raise(&mut self.counts.write_backs);
        Ok(())
    }

    /// Reads a line from below that is not kept, puts it in and holds it. The line that it replaces is clean.
    fn bring(&mut self, line: LineNo) -> Result<(), NoSpace>
        requires inside { line.0 < length (lines_of_first B.content self.old) }
        requires absent { kept_of self.old.sets line.0 ≡ None }
        requires ready { dirty_victim (set_of self.old.sets line.0) ≡ None }
        requires free { self.old.held ≡ None }
        ensures content { lines_of_first B.content self.new ≡ lines_of_first B.content self.old }
        ensures held { OnOk result (IsHeld self.new.held line.0) }
        ensures none { OnErr result (self.new.held ≡ None) }
        ensures span { self.new.span ≡ self.old.span }
        ensures cause { Refuses (B.stops self.old.below) (B.stops self.new.below) (B.crowded self.new.below) result }
        ensures did { Makes B.did_read B.did_write self.old.below (CountedStep Brings self.old.sets self.old.counts line.0 result self.new.sets self.new.counts) self.new.below }
    {
        let mut bytes: Line = [0; 64];
        if let Err(refusal) = self.below.read(line, &mut bytes) {
            return Err(refusal);
        }
        self.sets.put_in(line.0, &bytes);
        self.held = Some(line.0);
        raise(&mut self.counts.misses);
        Ok(())
    }

    /// The bytes of the held line.
    fn copy_held(&self, line: LineNo, into: &mut Line)
        requires inside { line.0 < length (lines_of_first B.content self.now) }
        requires held { IsHeld self.now.held line.0 }
        ensures bytes { slice_get (lines_of_first B.content self.now) line.0 ≡ Some into.new }
        ensures first { FirstHas self.now.sets line.0 into.new }
    {
        self.sets.copy_first(line.0, into);
    }

    /// Changes the held line, which is dirty from now on.
    fn set_held(&mut self, line: LineNo, from: &Line)
        requires inside { line.0 < length (lines_of_first B.content self.old) }
        requires held { IsHeld self.old.held line.0 }
        ensures content { lines_of_first B.content self.new ≡ slice_set (lines_of_first B.content self.old) line.0 from.now }
        ensures sets { self.new.sets ≡ with_set self.old.sets line.0 (overwritten (set_of self.old.sets line.0).lines line.0 from.now) }
        ensures below { self.new.below ≡ self.old.below }
        ensures held { self.new.held ≡ self.old.held }
        ensures counts { self.new.counts ≡ self.old.counts }
        ensures span { self.new.span ≡ self.old.span }
    {
        self.sets.set_first(line.0, from);
    }
}

impl<B: Layer> Layer for L1<B> {
    ghost content = { λ s. lines_of_first B.content s };

    ghost stops = { λ s. B.stops s.below };

    ghost crowded = { λ s n. B.crowded s.below n };

    ghost did_read = { FirstRead B.did_read B.did_write };

    ghost did_write = { FirstWrite B.did_read B.did_write };

    fn lines(&self) -> u32 {
        self.below.lines()
    }

    fn read(&mut self, line: LineNo, into: &mut Line) -> Result<(), NoSpace> {
        if let Err(refusal) = self.touch_line(line) {
            return Err(refusal);
        }
        self.copy_held(line, into);
        Ok(())
    }

    fn write(&mut self, line: LineNo, from: &Line) -> Result<(), NoSpace> {
        if let Err(refusal) = self.touch_line(line) {
            return Err(refusal);
        }
        self.set_held(line, from);
        Ok(())
    }

    fn view(&self, line: LineNo, into: &mut Line) {
        if self.sets.copy_of(line.0, into) {
            return;
        }
        self.below.view(line, into);
    }
}

impl<B: Layer> Port for L1<B> {
    ghost span = { λ s. s.span };

    ghost bytes = { λ s. flatten (lines_of_first B.content s) };

    ghost held = { λ s. s.held };

    ghost stops = { λ s. B.stops s.below };

    ghost crowded = { λ s n. B.crowded s.below n };

    ghost did_touch = { FirstTouch B.did_read B.did_write };

    ghost did_poke = { FirstPoke };

    fn span(&self) -> Geometry {
        self.span
    }

    fn touch(&mut self, line: LineNo) -> Result<(), NoSpace> {
        // Opened, the level shows that it has the lines of its span.
        let _ = &self.span;
        self.touch_line(line)
    }

    fn peek(&self, at: u32) -> u8 {
        let place = at - self.span.first();
        self.sets.first_byte(place / LINE_BYTES, place % LINE_BYTES)
    }

    fn poke(&mut self, at: u32, byte: u8) {
        let place = at - self.span.first();
        self.sets
            .set_first_byte(place / LINE_BYTES, place % LINE_BYTES, byte);
    }
}
