// Runs of the program in a file over the memory hierarchy.
ghost use Rattle.std.specs.Prelude.{◌≡◌, IfErr, IfOk};
ghost use Rattle.hier_types.specs.Settings.{AreWithinRules};
ghost use Rattle.hier_types.specs.Streams.{went};
ghost use Rattle.hier_machine.specs.FileRuns.{Opens};
ghost use Rattle.hier_cli.specs.Notices.{IsTellable};
ghost use Rattle.hier_cli.specs.ProgramRuns.{EndsRun, FailsToStart, end_of_opening};
ghost use Rattle.hier_cli.specs.Surveys.{demo_file};

use crate::notice::Notice;
use hier_machine::{Machine, NotOpened, open_file};
use hier_types::{Geometry, Settings, Sink, Source};
use run_report::End;
use rv_asm::demo_program;
use std::alloc::Global;

/// A machine that begins with the program in a file.
pub(crate) fn opened(alloc: Global, file: Vec<u8>, settings: &Settings) -> Result<Machine, End>
    requires { AreWithinRules settings.now }
    ensures ok { IfOk result (Opens settings.now file.items) }
    ensures err { IfErr result (FailsToStart settings.now file.items) }
{
    match open_file(alloc, file, settings) {
        Ok(machine) => Ok(machine),
        Err(fault) => Err(end_of_opening(settings.geometry, fault)),
    }
}

/// The end of work for which no machine was opened.
fn end_of_opening(geometry: Geometry, fault: NotOpened) -> End
    ensures { result ≡ end_of_opening geometry fault }
{
    match fault {
        NotOpened::BadImage(fault) => End::BadImage { fault },
        NotOpened::NoMemory => End::NoMemory,
        NotOpened::NoRoom(refusal) => End::no_room(geometry, refusal),
    }
}

/// Runs the program in a file, and reports.
pub(crate) fn run_file<I: Source, O: Sink>(
    alloc: Global,
    file: Vec<u8>,
    settings: &Settings,
    input: &mut I,
    out: &mut O,
) -> Notice
    requires { AreWithinRules settings.now }
    ensures ends { EndsRun settings.now (went I.left I.faults O.written O.faults input.old input.new out.old out.new) file.items result }
    ensures tellable { IsTellable result }
{
    let mut machine = match opened(alloc, file, settings) {
        Ok(machine) => machine,
        Err(end) => return Notice::Ended(end),
    };
    Notice::Reported(machine.run_to_report(input, out))
}

/// Runs the program that a number makes, and reports.
pub(crate) fn run_demo<I: Source, O: Sink>(
    alloc: Global,
    number: u32,
    settings: &Settings,
    input: &mut I,
    out: &mut O,
) -> Notice
    requires { AreWithinRules settings.now }
    ensures ends { EndsRun settings.now (went I.left I.faults O.written O.faults input.old input.new out.old out.new) (demo_file number) result }
    ensures tellable { IsTellable result }
{
    match demo_program(alloc, number) {
        Ok(file) => run_file(alloc, file, settings, input, out),
        Err(_) => Notice::Ended(End::NoMemory),
    }
}
