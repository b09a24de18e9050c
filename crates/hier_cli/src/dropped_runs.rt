// Runs of the program in a file with its output dropped, for what is printed after them.
ghost use Rattle.std.specs.Prelude.{◌≡◌, ◌≢◌, IfErr, IfOk, MatchResult, OnErr};
ghost use Rattle.hier_types.specs.Settings.{AreWithinRules};
ghost use Rattle.hier_types.specs.Streams.{streams, use_of};
ghost use Rattle.hier_machine.specs.FileRuns.{RunsFile, dropped};
ghost use Rattle.hier_cli.specs.declared.notice.Notice.TheVariants.{Retired};
ghost use Rattle.hier_cli.specs.Notices.{end_after};
ghost use Rattle.hier_cli.specs.ProgramRuns.{FailsToStart};
ghost use Rattle.run_report.specs.declared.end.End.TheVariants.{NoteFault, OutFault};

use crate::notice::{Notice, end_after};
use crate::runs::opened;
use hier_machine::Machine;
use hier_types::{Failed, NullSink, Settings, Source};
use run_report::End;
use std::alloc::Global;

/// A machine that has run, and how that run ended.
#[derive(Drop)]
pub(crate) struct Ran {
    pub(crate) machine: Machine,
    end: End,
}

/// Runs the program in a file with its output dropped.
pub(crate) fn run_dropped<I: Source>(
    alloc: Global,
    file: Vec<u8>,
    settings: &Settings,
    input: &mut I,
) -> Result<Ran, End>
    requires { AreWithinRules settings.now }
    ensures ok { IfOk result (λ ran. RunsFile settings.now file.items (streams (use_of I.left I.faults input.old input.new) dropped) ran.end ran.machine) }
    ensures span { IfOk result (λ ran. ran.machine.memory.span ≡ settings.now.geometry) }
    ensures err { IfErr result (FailsToStart settings.now file.items) }
    ensures untouched { OnErr result (input.new ≡ input.old) }
    ensures tellable { MatchResult result (λ ran. ran.end ≢ NoteFault) (λ end. end ≢ NoteFault) }
{
    let mut machine = match opened(alloc, file, settings) {
        Ok(machine) => machine,
        Err(end) => return Err(end),
    };
    let end = machine.run(input, &mut NullSink);
    let told = machine.told(end);
    Ok(Ran { machine, end: told })
}

impl Ran {
    /// What the note tells, once something was printed after the run.
    pub(crate) fn notice(&self, printed: Result<(), Failed>) -> Notice
        ensures { result ≡ Retired (end_after self.now.end OutFault printed) self.now.machine.guest.retired }
    {
        Notice::Retired {
            end: end_after(self.end, End::OutFault, printed),
            retired: self.machine.retired(),
        }
    }
}
