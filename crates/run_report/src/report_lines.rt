// The lines of a report.
ghost use Rattle.std.specs.Prelude.{◌≡◌, ◌≢◌, ◌+◌, ◌≤◌, ◌++◌, OnOk, OnErr};
ghost use Rattle.std.specs.Io.KnownBytes.{Appends};
ghost use Rattle.arrayvec.specs.ArrayString.{array_string_len};
ghost use Rattle.hier_types.specs.Causes.{HasCause};
ghost use Rattle.hier_types.specs.Outside.{AppendsFront};
ghost use Rattle.run_report.specs.declared.end.End.TheVariants.{NoteFault};
ghost use Rattle.run_report.specs.ReportLines as lines;
ghost use Rattle.run_report.specs.TextLines.{texts_of};

use crate::end::page_address;
use crate::lines::{write_both, write_lines};
use crate::note::{end_line, put_refusal, retired_line};
use crate::report::{Report, Settled};
use crate::text_line::TextLine;
use crate::totals::totals_lines;
use hier_types::{Failed, Geometry, Sink};

/// Writes how a run ended, what was counted, and what the memory takes. Each line is one write, and after one that
/// failed there is no other: then a front of the text stands on the note. Where the settling was refused its line is
/// the last.
pub fn write_text<N: Sink>(report: &Report, geometry: &Geometry, note: &mut N) -> Result<(), Failed>
    requires { lines.CanBeTold report.now }
    ensures ok { OnOk result (Appends (N.written note.old) (N.written note.new) (lines.report_text geometry.now report.now)) }
    ensures err { OnErr result (AppendsFront (N.written note.old) (N.written note.new) (lines.report_text geometry.now report.now)) }
    ensures cause { HasCause (N.faults note.old) (N.faults note.new) result }
{
    let lines = run_lines(report, geometry);
    match &report.settled {
        Settled::Done(totals) => write_both(&lines, &totals_lines(totals), note),
        Settled::Space(_) => write_lines(&lines, note),
    }
}

/// The lines that stand in every report.
fn run_lines(report: &Report, geometry: &Geometry) -> [TextLine; 9]
    requires { report.now.end ≢ NoteFault }
    ensures { texts_of result ≡ lines.run_lines geometry.now report.now }
{
    let l1 = &report.counts.l1;
    let l2 = &report.counts.l2;
    let pages = &report.counts.pages;
    [
        end_line(&report.end),
        retired_line(report.retired),
        TextLine::of_numbers("l1", &[l1.hits, l1.misses, l1.write_backs]),
        TextLine::of_numbers("l2", &[l2.reads, l2.read_hits, l2.writes, l2.write_hits]),
        TextLine::of_numbers("pages", &[pages.reads, pages.writes]),
        TextLine::of_numbers("meta", &[pages.meta_hits, pages.meta_misses]),
        TextLine::of_numbers("turns", &[pages.mover_turns, report.counts.cleaner_turns]),
        TextLine::of_numbers("tidy", &[pages.tidy_turns]),
        settle_line(&report.settled, geometry),
    ]
}

fn settle_line(settled: &Settled, geometry: &Geometry) -> TextLine
    ensures { result.text.bytes ≡ lines.settle_line geometry.now settled.now }
{
    let mut line = TextLine::new();
    line.word("settle ");
    put_settled(&mut line, settled, geometry);
    line.word("\n");
    line
}

/// Appends what became of the settling, at most 35 bytes.
pub(crate) fn put_settled(line: &mut TextLine, settled: &Settled, geometry: &Geometry)
    requires room { array_string_len line.old.text + 35 ≤ 192 }
    ensures text { line.new.text.bytes ≡ line.old.text.bytes ++ lines.settled_text geometry.now settled.now }
    ensures len { array_string_len line.new.text ≤ array_string_len line.old.text + 35 }
{
    match settled {
        Settled::Done(_) => line.word("done"),
        Settled::Space(refusal) => put_refusal(
            line,
            "space ",
            page_address(*geometry, refusal.page),
            refusal.order,
        ),
    }
}
