// The sizes of a file's pages, and generated files.
ghost use Rattle.std.specs.Prelude.{◌≡◌, ◌≤◌, length};
ghost use Rattle.page_plan.specs.Sizes.{sizes_of_memory};
ghost use Rattle.sim_survey.specs.Filled.{lines_of_filled};
ghost use Rattle.hier_types.specs.Streams.{use_of};
ghost use Rattle.run_report.specs.ReportLines.{survey_text};
ghost use Rattle.hier_cli.specs.Notices.{IsTellable};
ghost use Rattle.hier_cli.specs.Surveys.{PrintedOrNoMemory, demo_file};

use crate::notice::{Notice, end_after};
use hier_types::{Codec, Sink};
use run_report::{End, write_survey};
use rv_asm::demo_program;
use sim_survey::survey;
use std::alloc::Global;
use std::thread::Threads;

/// Prints what the pages of a file take at their plans.
pub(crate) fn survey_file<R: Threads + Sync, O: Sink>(
    rt: &R,
    alloc: Global,
    file: &[u8],
    codec: Codec,
    out: &mut O,
) -> Notice
    requires { length file.now ≤ 67108864 }
    ensures ends { PrintedOrNoMemory (survey_text (sizes_of_memory codec (lines_of_filled file.now))) (use_of O.written O.faults out.old out.new) result }
    ensures tellable { IsTellable result }
{
    match survey(rt, alloc, codec, file) {
        Ok(totals) => {
            Notice::Ended(end_after(End::Done, End::OutFault, write_survey(&totals, out)))
        },
        Err(_) => Notice::Ended(End::NoMemory),
    }
}

/// Writes the file of the program that a number makes.
pub(crate) fn write_demo<O: Sink>(alloc: Global, number: u32, out: &mut O) -> Notice
    ensures ends { PrintedOrNoMemory (demo_file number) (use_of O.written O.faults out.old out.new) result }
    ensures tellable { IsTellable result }
{
    match demo_program(alloc, number) {
        Ok(file) => Notice::Ended(end_after(End::Done, End::OutFault, out.write(&file))),
        Err(_) => Notice::Ended(End::NoMemory),
    }
}
