// Bytes between a buffer and the guest's memory.
ghost use Rattle.std.specs.Prelude.{◌≡◌, ◌+◌, ◌-◌, ◌%◌, ◌<◌, ◌≤◌, [], ℕ, OnOk, length, slice_index, take, drop};
ghost use Rattle.hier_types.specs.Causes.{Refuses, refusal_of};
ghost use Rattle.hier_types.specs.PortCalls.{IsHeld, MadeInOrder, PortMade, poke_calls};
ghost use Rattle.hier_types.specs.Span.{Has, HasLine, first, line_at, past};
ghost use Rattle.rv_core.specs.Hart.{put};
ghost use Rattle.rv_core.specs.Touched.{addressed};
ghost use Rattle.sys_shim.specs.CallLines.{buffer_lines};
ghost use Rattle.sys_shim.specs.Copies.{CopiesLine};

use hier_types::{LINE_BYTES, LineNo, NoSpace, Port};

/// Touches the lines of a buffer that begins at an address, in rising order, and copies its bytes.
pub fn gather<P: Port>(port: &mut P, at: u32, into: &mut [u8]) -> Result<(), NoSpace>
    requires some { 0 < length into.old }
    requires low { first (P.span port.old) ≤ at }
    requires high { at + length into.old ≤ past (P.span port.old) }
    ensures ok { OnOk result (into.new ≡ take (length into.old) (drop (at - first (P.span port.old)) (P.bytes port.old))) }
    ensures bytes { P.bytes port.new ≡ P.bytes port.old }
    ensures span { P.span port.new ≡ P.span port.old }
    ensures cause { Refuses (P.stops port.old) (P.stops port.new) (P.crowded port.new) result }
    ensures made { MadeInOrder P.did_touch P.did_poke port.old (buffer_lines (P.span port.old) at (length into.old)) [] (refusal_of result) port.new }
{
    let geometry = port.span();
    let last = geometry.line_of(at + (into.len() - 1) as u32).0;
    for line in geometry.line_of(at).0..last + 1 {
        if let Err(refusal) = port.touch(LineNo(line)) {
            return Err(refusal);
        }
        copy_line(port, LineNo(line), at, into);
    }
    Ok(())
}

/// Copies what the buffer has of the held line to its places.
fn copy_line<P: Port>(port: &P, line: LineNo, at: u32, into: &mut [u8])
    requires held { IsHeld (P.held port.now) line.0 }
    requires inside { HasLine (P.span port.now) line.0 }
    requires low { first (P.span port.now) ≤ at }
    requires high { at + length into.old ≤ past (P.span port.now) }
    ensures { CopiesLine (P.span port.now) (P.bytes port.now) line.0 at into.old into.new }
{
    let start = port.span().first() + line.0 * LINE_BYTES;
    let from = at.max(start);
    let to = (at + into.len() as u32).min(start + LINE_BYTES);
    for place in from..to {
        into[(place - at) as usize] = port.peek(place);
    }
}

/// Puts bytes into the held line, from an address of it on.
pub fn scatter<P: Port>(port: &mut P, at: u32, bytes: &[u8])
    requires has { Has (P.span port.old) at }
    requires within { at % 64 + length bytes.now ≤ 64 }
    requires held { IsHeld (P.held port.old) (line_at (P.span port.old) at) }
    ensures bytes { P.bytes port.new ≡ put (P.bytes port.old) (at - first (P.span port.old)) bytes.now }
    ensures span { P.span port.new ≡ P.span port.old }
    ensures stops { P.stops port.new ≡ P.stops port.old }
    ensures did { PortMade P.did_touch P.did_poke port.old (poke_calls (addressed at bytes.now)) port.new }
{
    for index in 0..bytes.len() {
        port.poke(at + index as u32, bytes[index]);
    }
}
