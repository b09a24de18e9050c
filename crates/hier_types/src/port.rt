// The bytes of the guest, as an instruction reaches them.
ghost use Rattle.std.specs.Prelude.{◌≡◌, ◌-◌, ◌*◌, List, ℕ, Option, Result, None, length, OnOk, OnErr, slice_index, slice_set};
ghost use Rattle.hier_types.specs.declared.faults.NoSpace.{NoSpace};
ghost use Rattle.hier_types.specs.Causes.{Refuses};
ghost use Rattle.hier_types.specs.PortCalls.{IsHeld};
ghost use Rattle.hier_types.specs.Span.{Span, first, Has, HasLine, line_at};

use crate::faults::NoSpace;
use crate::geometry::Geometry;
use crate::units::LineNo;

/// The guest's bytes, one line at a time: a line is touched, and then its bytes are peeked and poked.
pub trait Port {
    /// The guest's span. No call changes it.
    ghost span: { Self → Span };

    /// One byte for each address of the span.
    ghost bytes: { Self → List ℕ };

    /// The line that was touched last, if any is held.
    ghost held: { Self → Option ℕ };

    /// How often a touch was refused. It never falls.
    ghost stops: { Self → ℕ };

    /// Whether the state as it stands justifies the refusal.
    ghost crowded: { Self → NoSpace → Type 0 };

    /// What one touch does: the state before, the line, the answer, the state after.
    ghost did_touch: { Self → ℕ → Result (Unit {0}) NoSpace → Self → Type 0 };

    /// What one poke does: the state before, the address, the byte, the state after.
    ghost did_poke: { Self → ℕ → ℕ → Self → Type 0 };

    fn span(&self) -> Geometry
        ensures span { result ≡ span self.now }
        ensures sized { length (bytes self.now) ≡ 4096 * (span self.now).pages };

    /// Holds a line. On a refusal no line is held. The bytes stay in any case.
    fn touch(&mut self, line: LineNo) -> Result<(), NoSpace>
        requires { HasLine (span self.old) line.0 }
        ensures held { OnOk result (IsHeld (held self.new) line.0) }
        ensures none { OnErr result (held self.new ≡ None) }
        ensures bytes { bytes self.new ≡ bytes self.old }
        ensures span { span self.new ≡ span self.old }
        ensures cause { Refuses (stops self.old) (stops self.new) (crowded self.new) result }
        ensures did { did_touch self.old line.0 result self.new };

    /// The byte at an address of the held line.
    fn peek(&self, at: u32) -> u8
        requires has { Has (span self.now) at }
        requires held { IsHeld (held self.now) (line_at (span self.now) at) }
        ensures { result ≡ slice_index (bytes self.now) (at - first (span self.now)) };

    /// Changes the byte at an address of the held line, which stays held.
    fn poke(&mut self, at: u32, byte: u8)
        requires has { Has (span self.old) at }
        requires held { IsHeld (held self.old) (line_at (span self.old) at) }
        ensures bytes { bytes self.new ≡ slice_set (bytes self.old) (at - first (span self.old)) byte }
        ensures held { held self.new ≡ held self.old }
        ensures span { span self.new ≡ span self.old }
        ensures stops { stops self.new ≡ stops self.old }
        ensures did { did_poke self.old at byte self.new };
}
