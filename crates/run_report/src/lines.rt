// Lines that are written one by one.
ghost use Rattle.std.specs.Prelude.{◌++◌, OnOk, OnErr};
ghost use Rattle.std.specs.Io.KnownBytes.{Appends};
ghost use Rattle.hier_types.specs.Causes.{HasCause};
ghost use Rattle.hier_types.specs.Lines.{flatten};
ghost use Rattle.hier_types.specs.Outside.{AppendsFront};
ghost use Rattle.run_report.specs.TextLines.{texts_of};

use crate::text_line::TextLine;
use hier_types::{Failed, Sink};

/// Writes lines in their order, each by one call. After a call that failed there is no other: then a front of the
/// lines stands there.
pub(crate) fn write_lines<N: Sink>(lines: &[TextLine], note: &mut N) -> Result<(), Failed>
    ensures ok { OnOk result (Appends (N.written note.old) (N.written note.new)
        (flatten (texts_of lines.now))) }
    ensures err { OnErr result (AppendsFront (N.written note.old) (N.written note.new)
        (flatten (texts_of lines.now))) }
    ensures cause { HasCause (N.faults note.old) (N.faults note.new) result }
{
    for line in lines {
        if let Err(failed) = note.write(line.as_str().as_bytes()) {
            return Err(failed);
        }
    }
    Ok(())
}

/// Writes some lines, and then more, in the same way.
pub(crate) fn write_both<N: Sink>(
    lines: &[TextLine],
    more: &[TextLine],
    note: &mut N,
) -> Result<(), Failed>
    ensures ok { OnOk result (Appends (N.written note.old) (N.written note.new)
        (flatten (texts_of lines.now ++ texts_of more.now))) }
    ensures err { OnErr result (AppendsFront (N.written note.old) (N.written note.new)
        (flatten (texts_of lines.now ++ texts_of more.now))) }
    ensures cause { HasCause (N.faults note.old) (N.faults note.new) result }
{
    if let Err(failed) = write_lines(lines, note) {
        return Err(failed);
    }
    write_lines(more, note)
}
