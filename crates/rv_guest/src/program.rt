// A guest over a port of its own.
ghost use Rattle.std.specs.Prelude.{◌≡◌, ◌<◌, ◌≤◌, ◌-◌, ◌^◌, Some};
ghost use Rattle.hier_types.specs.Streams.{FaultsStay, went};
ghost use Rattle.rv_guest.specs.Beside.{guest_at};
ghost use Rattle.rv_guest.specs.FollowsFlat.{FollowsFlat};
ghost use Rattle.rv_guest.specs.Programs.{ProgramDoes, guest_of, stands_at};
ghost use Rattle.rv_guest.specs.Steps.{IsJustified};

use crate::ends::MachineEnd;
use crate::guest::Guest;
use beat_runs::{Runner, run};
use hier_types::{Beat, BeatWord, Port, Sink, Source};

/// A program with a memory that it owns, in which no one else has a turn.
#[derive(Drop)]
pub struct Program<P> {
    pub guest: Guest,
    pub port: P,
}

impl<P: Port> Program<P> {
    /// Makes instructions until one ends the run, or as many have retired as the budget allows, which is tested before
    /// each of them.
    pub fn run<I: Source, O: Sink>(&mut self, budget: u64, input: &mut I, out: &mut O) -> MachineEnd
        requires within { self.old.guest.retired ≤ budget }
        ensures follows { FollowsFlat (guest_at (P.span self.old.port) (guest_of P.bytes self.old)) budget (guest_of P.bytes self.old) result (guest_of P.bytes self.new) (went I.left I.faults O.written O.faults input.old input.new out.old out.new) }
        ensures span { P.span self.new.port ≡ P.span self.old.port }
        ensures stops { P.stops self.old.port ≤ P.stops self.new.port }
        ensures cause { IsJustified (P.stops self.old.port) (P.stops self.new.port) (P.crowded self.new.port) (Some result) }
        ensures faults { FaultsStay (went I.left I.faults O.written O.faults input.old input.new out.old out.new) }
    {
        let word = BeatWord::new(&[Beat::Hart]).unwrap();
        run(self, &word, budget, input, out)
    }
}

impl<P: Port> Runner for Program<P> {
    type End = MachineEnd;

    ghost retired = { λ s. s.guest.retired };

    ghost ready = { λ _. Unit {0} };

    ghost may = { λ s. s.guest.retired < 2 ^ 64 - 1 };

    ghost stands = { stands_at };

    ghost does = { ProgramDoes P.span P.bytes P.stops P.crowded };

    fn stand(&mut self, budget: u64) -> Option<MachineEnd> {
        if self.guest.retired < budget {
            return None;
        }
        Some(MachineEnd::Budget)
    }

    fn beat<I: Source, O: Sink>(
        &mut self,
        beat: Beat,
        input: &mut I,
        out: &mut O,
    ) -> Option<MachineEnd> {
        match beat {
            Beat::Hart => self.guest.beat(&mut self.port, input, out),
            Beat::Mover => None,
            Beat::Cleaner => None,
        }
    }
}
