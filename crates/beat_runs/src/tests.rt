ghost use Rattle.std.specs.Prelude.{◌<◌, ◌-◌, ◌^◌, Some, None, if◌then◌else◌, nat_lt};
ghost use Rattle.beat_runs.specs.declared.tests.ClockEnd.TheVariants.{Budget};

use super::*;
use hier_types::{Beat, BeatWord, BytesSource, NullSink, Sink, Source};
use std::test::Fail;

/// How a run of a clock ends.
#[derive(Clone, Copy, Debug, PartialEq, Eq)]
enum ClockEnd {
    Alarm,
    Budget,
}

/// Ticks at each beat of the hart, counts all others, and rings at a tick.
#[derive(Debug, Drop, PartialEq, Eq)]
struct Clock {
    ticks: u64,
    turns: u64,
    alarm: u64,
}

impl Runner for Clock {
    type End = ClockEnd;

    ghost retired = { λ s. s.ticks };

    ghost ready = { λ _. Unit {0} };

    ghost may = { λ s. s.ticks < 2 ^ 64 - 1 };

    ghost stands = { λ budget s. if nat_lt s.ticks budget then None else Some (Budget, s) };

    ghost does = { λ _ _ _ _ _. Unit {0} };

    fn stand(&mut self, budget: u64) -> Option<ClockEnd> {
        if self.ticks < budget {
            return None;
        }
        Some(ClockEnd::Budget)
    }

    fn beat<I: Source, O: Sink>(
        &mut self,
        beat: Beat,
        _input: &mut I,
        _out: &mut O,
    ) -> Option<ClockEnd> {
        if beat != Beat::Hart {
            self.turns = self.turns.saturating_add(1);
            return None;
        }
        self.ticks += 1;
        if self.ticks == self.alarm {
            return Some(ClockEnd::Alarm);
        }
        None
    }
}

#[test]
fn no_beat_is_made_behind_the_end(rt: HostRuntime) -> Result<(), Fail> {
    let alloc = rt.alloc();
    let (hart, mover, cleaner) = (Beat::Hart, Beat::Mover, Beat::Cleaner);
    let late: &[Beat] = &[mover, hart];
    let long: &[Beat] = &[hart, mover, mover, mover, cleaner];
    for (beats, budget, alarm, end, ticks, turns) in [
        (late, 0, 9, ClockEnd::Budget, 0, 0),
        (late, 2, 9, ClockEnd::Budget, 2, 2),
        (long, 1, 9, ClockEnd::Budget, 1, 0),
        (long, 2, 9, ClockEnd::Budget, 2, 4),
        (long, 9, 3, ClockEnd::Alarm, 3, 8),
        (late, 9, 1, ClockEnd::Alarm, 1, 1),
    ] {
        let word = BeatWord::new(beats).ok_or("no word")?;
        let mut input = BytesSource::new(Vec::new(alloc), Vec::new(alloc));
        let mut clock = Clock {
            ticks: 0,
            turns: 0,
            alarm,
        };
        assert_eq!(rt;
            run(&mut clock, &word, budget, &mut input, &mut NullSink),
            end
        );
        assert_eq!(rt; (clock.ticks, clock.turns), (ticks, turns));
    }
    Ok(())
}
