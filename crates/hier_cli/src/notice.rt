// What the note tells of the work.
ghost use Rattle.std.specs.Prelude.{◌≡◌, true};
ghost use Rattle.run_report.specs.ReportLines.{CanBeTold};
ghost use Rattle.hier_types.specs.Streams.{use_of};
ghost use Rattle.hier_cli.specs.Notices.{IsTellable, NotesNotice, end_after};
ghost use Rattle.hier_cli.specs.declared.notice.Notice.TheVariants.{Reported};

use hier_types::{Failed, Settings, Sink};
use run_report::{End, Report, to_json, write_end, write_text};
use std::alloc::Global;

/// What the note tells of the work that was done.
#[derive(Clone, Copy, Debug)]
pub enum Notice {
    /// How the work ended. No machine was opened, or none was needed.
    Ended(End),
    /// How a run ended, and how many instructions retired.
    Retired { end: End, retired: u64 },
    /// A run or a trace with all that was counted.
    Reported(Report),
}

/// Writes the notice, and answers the end of the work: that of the notice, or of the note itself where it failed. Where
/// there is no memory for JSON that end is told alone.
pub(crate) fn write_notice<N: Sink>(
    alloc: Global,
    notice: Notice,
    settings: &Settings,
    note: &mut N,
) -> End
    requires { IsTellable notice }
    ensures { NotesNotice settings.now notice (use_of N.written N.faults note.old note.new) result }
{
    match notice {
        Notice::Ended(end) => end_after(end, End::NoteFault, write_end(&end, None, note)),
        Notice::Retired { end, retired } => {
            end_after(end, End::NoteFault, write_end(&end, Some(retired), note))
        }
        Notice::Reported(report) if settings.json => write_json(alloc, &report, settings, note),
        Notice::Reported(report) => end_after(
            report.end,
            End::NoteFault,
            write_text(&report, &settings.geometry, note),
        ),
    }
}

/// Writes a report as JSON, in one call.
fn write_json<N: Sink>(alloc: Global, report: &Report, settings: &Settings, note: &mut N) -> End
    requires told { CanBeTold report.now }
    requires json { settings.now.json ≡ true }
    ensures { NotesNotice settings.now (Reported report.now) (use_of N.written N.faults note.old note.new) result }
{
    match to_json(alloc, report, &settings.geometry) {
        Ok(text) => end_after(report.end, End::NoteFault, note.write(&text)),
        Err(_) => end_after(
            End::NoMemory,
            End::NoteFault,
            write_end(&End::NoMemory, None, note),
        ),
    }
}

/// The end of work whose last step was a write.
pub(crate) fn end_after(own: End, failed: End, written: Result<(), Failed>) -> End
    ensures { result ≡ end_after own failed written }
{
    match written {
        Ok(()) => own,
        Err(Failed) => failed,
    }
}
