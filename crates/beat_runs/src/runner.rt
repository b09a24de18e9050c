// What goes from beat to beat, and its run.
ghost use Rattle.std.specs.Prelude.{◌≡◌, ◌<◌, ◌+◌, ◌%◌, ℕ, Option, Some, None, IfNone, IfSome};
ghost use Rattle.hier_types.specs.declared.beats.Beat.{Beat};
ghost use Rattle.hier_types.specs.Streams.{FaultsStay, Streams, went};
ghost use Rattle.beat_runs.specs.Points.{Runs, retired_by};

use hier_types::{Beat, BeatWord, Sink, Source};

/// What goes from beat to beat up to an end: a machine with its program, or with the accesses of a trace.
pub trait Runner {
    /// How a run of it ends.
    type End;

    /// How many instructions retired, or accesses were made.
    ghost retired: { Self → ℕ };

    /// Whether it may still be run.
    ghost ready: { Self → Type 0 };

    /// Whether it may make a beat.
    ghost may: { Self → Type 0 };

    /// Where a run with this budget ends before a beat, and what it leaves then.
    ghost stands: { ℕ → Self → Option (Self.End × Self) };

    /// What one beat does, with what the streams have of it.
    ghost does: { Beat → Self → Option Self.End → Self → Streams → Type 0 };

    /// The end, where a run with this budget ends before a beat. Else nothing changes, and a beat may be made.
    fn stand(&mut self, budget: u64) -> Option<Self::End>
        requires { ready self.old }
        ensures none { IfNone result ((stands budget self.old ≡ None) × (self.new ≡ self.old) × (retired self.old < budget)) }
        ensures may { IfNone result (may self.new) }
        ensures some { IfSome result (λ end. stands budget self.old ≡ Some (end, self.new)) };

    /// One beat, and the end where it ends the run.
    fn beat<I: Source, O: Sink>(
        &mut self,
        beat: Beat,
        input: &mut I,
        out: &mut O,
    ) -> Option<Self::End>
        requires { may self.old }
        ensures does { does beat self.old result self.new (went I.left I.faults O.written O.faults input.old input.new out.old out.new) }
        ensures goes_on { IfNone result (ready self.new × (retired self.new ≡ retired_by beat (retired self.old))) }
        ensures faults { FaultsStay (went I.left I.faults O.written O.faults input.old input.new out.old out.new) };
}

/// Makes the beats of the word from its first one on, over and over, up to an end. At the used-up budget nothing further
/// is called.
pub fn run<M: Runner, I: Source, O: Sink>(
    runner: &mut M,
    word: &BeatWord,
    budget: u64,
    input: &mut I,
    out: &mut O,
) -> M::End
    requires ready { M.ready runner.old }
    ensures runs { Runs M.stands M.does word.now budget runner.old result runner.new (went I.left I.faults O.written O.faults input.old input.new out.old out.new) }
{
    let length = word.len();
    let mut place = 0;
    'beats: loop {
        if let Some(end) = runner.stand(budget) {
            return end;
        }
        let beat = word.beat_at(place);
        if let Some(end) = runner.beat(beat, input, out) {
            return end;
        }
        place = place_after(place, length);
    }
}

/// The place of the beat behind this one, in a word of so many beats that begins again behind its last one.
fn place_after(place: u8, length: u8) -> u8
    requires { place < length }
    ensures { result ≡ (place + 1) % length }
{
    let next = place + 1;
    if next < length { next } else { 0 }
}
