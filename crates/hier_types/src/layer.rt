// A memory of lines, whatever it is made of.
ghost use Rattle.std.specs.Prelude.{◌≡◌, ◌<◌, List, ℕ, Result, Some, length, OnOk, OnErr, slice_get, slice_set};
ghost use Rattle.hier_types.specs.declared.faults.NoSpace.{NoSpace};
ghost use Rattle.hier_types.specs.Calls.{read_answer};
ghost use Rattle.hier_types.specs.Causes.{Refuses};
ghost use Rattle.hier_types.specs.Lines.{AreLines};

use crate::faults::NoSpace;
use crate::units::{Line, LineNo};

/// A memory of lines of 64 bytes. A level that stands on a layer may drop it, where it finds no memory.
pub trait Layer: Drop {
    /// The lines, by number.
    ghost content: { Self → List (List ℕ) };

    /// How often a call was refused. It never falls.
    ghost stops: { Self → ℕ };

    /// Whether the state as it stands justifies the refusal.
    ghost crowded: { Self → NoSpace → Type 0 };

    /// What one call of `read` does: the state before, the line, the answer with the bytes given, the state after.
    ghost did_read: { Self → ℕ → Result (List ℕ) NoSpace → Self → Type 0 };

    /// What one call of `write` does: the state before, the line, its new bytes, the answer, the state after.
    ghost did_write: { Self → ℕ → List ℕ → Result (Unit {0}) NoSpace → Self → Type 0 };

    /// The number of lines.
    fn lines(&self) -> u32
        ensures count { result ≡ length (content self.now) }
        ensures whole { AreLines (content self.now) };

    /// Gives a line. The content stays in any case, and on a refusal `into` stays too.
    fn read(&mut self, line: LineNo, into: &mut Line) -> Result<(), NoSpace>
        requires { line.0 < length (content self.old) }
        ensures ok { OnOk result (slice_get (content self.old) line.0 ≡ Some into.new) }
        ensures err { OnErr result (into.new ≡ into.old) }
        ensures content { content self.new ≡ content self.old }
        ensures cause { Refuses (stops self.old) (stops self.new) (crowded self.new) result }
        ensures did { did_read self.old line.0 (read_answer result into.new) self.new };

    /// Changes a line. On a refusal the content stays.
    fn write(&mut self, line: LineNo, from: &Line) -> Result<(), NoSpace>
        requires { line.0 < length (content self.old) }
        ensures ok { OnOk result (content self.new ≡ slice_set (content self.old) line.0 from.now) }
        ensures err { OnErr result (content self.new ≡ content self.old) }
        ensures cause { Refuses (stops self.old) (stops self.new) (crowded self.new) result }
        ensures did { did_write self.old line.0 from.now result self.new };

    /// Gives a line, changes nothing and never refuses.
    fn view(&self, line: LineNo, into: &mut Line)
        requires { line.0 < length (content self.now) }
        ensures { slice_get (content self.now) line.0 ≡ Some into.new };
}
