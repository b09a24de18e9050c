// The lines of a survey.
ghost use Rattle.std.specs.Prelude.{◌+◌, ◌≤◌, OnOk, OnErr};
ghost use Rattle.std.specs.Io.KnownBytes.{Appends};
ghost use Rattle.hier_types.specs.Causes.{HasCause};
ghost use Rattle.hier_types.specs.Outside.{AppendsFront};
ghost use Rattle.run_report.specs.ReportLines as lines;

use crate::lines::write_both;
use crate::text_line::TextLine;
use crate::totals::{pages_with_block, totals_lines};
use hier_types::{Failed, Sink, Totals};

/// Writes how many pages there are, how many of them are zeros, and what the others take. Each line is one write, and
/// after one that failed there is no other: then a front of the text stands on the output.
pub fn write_survey<O: Sink>(totals: &Totals, out: &mut O) -> Result<(), Failed>
    requires { lines.HasBlocks totals.now }
    ensures ok { OnOk result (Appends (O.written out.old) (O.written out.new) (lines.survey_text totals.now)) }
    ensures err { OnErr result (AppendsFront (O.written out.old) (O.written out.new) (lines.survey_text totals.now)) }
    ensures cause { HasCause (O.faults out.old) (O.faults out.new) result }
{
    let zero = u64::from(totals.zero);
    let pages = [
        TextLine::of_numbers("pages", &[zero + pages_with_block(totals)]),
        TextLine::of_numbers("zero", &[zero]),
    ];
    write_both(&pages, &totals_lines(totals), out)
}
