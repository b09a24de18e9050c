// The calls, by their numbers under Linux on RISC-V.
ghost use Rattle.std.specs.Prelude.{◌≡◌, ◌+◌, ◌*◌, ◌%◌, ◌<◌, ◌≤◌, [], ◌∷◌, length, slice_index, slice_set};
ghost use Rattle.hier_types.specs.PortCalls.{IsHeld, MadeInOrder, PortMade, poke_calls};
ghost use Rattle.hier_types.specs.Span.{Has, line_at};
ghost use Rattle.hier_types.specs.Streams.{FaultsStay, IsUntouched, Stream, streams, use_of, went};
ghost use Rattle.rv_core.specs.Answers.{hart_of};
ghost use Rattle.rv_core.specs.Hart.{sum};
ghost use Rattle.sys_shim.specs.CallLines.{lines_of_request, pokes_of_request};
ghost use Rattle.sys_shim.specs.Called.{DoesCall, StopIsJustified, stop_of_call, task};
ghost use Rattle.sys_shim.specs.Calls.{Read, answered, break_at, closed, filled, has_all, read_of, request_of, write_of};
ghost use Rattle.sys_shim.specs.declared.brk.Brk.{Brk};
ghost use Rattle.sys_shim.specs.declared.calls.Called.TheVariants as called;

use crate::brk::Brk;
use crate::copies::{gather, scatter};
use hier_types::{Geometry, LINE_BYTES, NoSpace, Port, Sink, Source};
use rv_core::Regs;

const CLOSE: u32 = 57;

const READ: u32 = 63;

const WRITE: u32 = 64;

const EXIT: u32 = 93;

const EXIT_GROUP: u32 = 94;

const BRK: u32 = 214;

/// The number of the call.
const NUMBER: usize = 17;

/// The first argument, and the result.
const FIRST: usize = 10;

/// The most bytes that one write passes on.
const MOST_BYTES: u32 = 4096;

/// Not an open file: -9.
const EBADF: u32 = 0xffff_fff7;

/// Not an address of the guest's: -14.
const EFAULT: u32 = 0xffff_fff2;

/// No such call: -38.
const ENOSYS: u32 = 0xffff_ffda;

/// What a call did.
#[derive(Clone, Copy, Debug, PartialEq, Eq)]
pub enum Called {
    /// It was answered in x10, and pc is that of the next instruction.
    Done,
    /// The guest ends itself with a status.
    Exit(u32),
    /// The input failed, and gave nothing.
    InFault,
    /// The output failed, and took a front of the call's bytes.
    OutFault,
    /// A touch was refused. Nothing was read or written.
    Stop(NoSpace),
}

/// Makes the call that the registers ask for. Any answer but `Done` leaves registers, bytes and break.
pub fn call<P: Port, I: Source, O: Sink>(
    regs: &mut Regs,
    port: &mut P,
    input: &mut I,
    out: &mut O,
    brk: &mut Brk,
) -> Called
    ensures did { let old = hart_of regs.old (P.bytes port.old) in DoesCall (P.span port.old) (request_of (P.span port.old) brk.old old) (task old brk.old) result (task (hart_of regs.new (P.bytes port.new)) brk.new) (went I.left I.faults O.written O.faults input.old input.new out.old out.new) }
    ensures span { P.span port.new ≡ P.span port.old }
    ensures stops { P.stops port.old ≤ P.stops port.new }
    ensures cause { StopIsJustified (P.stops port.old) (P.stops port.new) (P.crowded port.new) result }
    ensures faults { FaultsStay (went I.left I.faults O.written O.faults input.old input.new out.old out.new) }

    // The touches and pokes that it makes, and no other.
    ensures made { let old = hart_of regs.old (P.bytes port.old) in let request = request_of (P.span port.old) brk.old old in
        MadeInOrder P.did_touch P.did_poke port.old (lines_of_request (P.span port.old) old request) (pokes_of_request (P.span port.old) request result (hart_of regs.new (P.bytes port.new))) (stop_of_call result) port.new }
{
    let number = regs.x[NUMBER];
    if number == EXIT || number == EXIT_GROUP {
        return Called::Exit(regs.x[FIRST]);
    }
    if number == WRITE {
        return write(regs, port, out);
    }
    if number == READ {
        return read(regs, port, input);
    }
    if number == CLOSE {
        let result = closed(regs.x[FIRST]);
        return answer(regs, result);
    }
    if number == BRK {
        return set_break(regs, brk);
    }
    answer(regs, ENOSYS)
}

/// Puts a result into x10, and goes on to the next instruction.
fn answer(regs: &mut Regs, value: u32) -> Called
    ensures done { result ≡ called.Done }
    ensures pc { regs.new.pc ≡ sum regs.old.pc 4 }
    ensures x { regs.new.x ≡ slice_set regs.old.x 10 value }
    ensures given { slice_index regs.new.x 10 ≡ value }
{
    regs.x[FIRST] = value;
    regs.pc = regs.pc.wrapping_add(4);
    Called::Done
}

/// What closing a file answers. The files 0, 1 and 2 stay open all the same.
fn closed(file: u32) -> u32
    ensures { result ≡ closed file }
{
    if file < 3 { 0 } else { EBADF }
}

/// Moves the break within its bounds, and answers where it is then.
fn set_break(regs: &mut Regs, brk: &mut Brk) -> Called
    ensures done { result ≡ called.Done }
    ensures moved { brk.new ≡ record { low = brk.old.low; top = break_at brk.old (slice_index regs.old.x 10); high = brk.old.high } }
    ensures pc { regs.new.pc ≡ sum regs.old.pc 4 }
    ensures x { regs.new.x ≡ slice_set regs.old.x 10 brk.new.top }
{
    brk.ask(regs.x[FIRST]);
    answer(regs, brk.top)
}

/// Whether so many bytes from an address on are in the span.
fn has_bytes(geometry: &Geometry, at: u32, count: u32) -> bool
    requires { count < 8192 }
    ensures { result ≡ has_all geometry.now at count }
{
    geometry.first() <= at && u64::from(at) + u64::from(count) <= u64::from(geometry.past())
}

/// Reads from the file 0 into the guest's memory, at most to the end of the first byte's line. That line is touched
/// before the input is asked: where the touch is refused, nothing is taken.
fn read<P: Port, I: Source>(regs: &mut Regs, port: &mut P, input: &mut I) -> Called
    ensures did { (brk : Brk) (output : Stream) → IsUntouched output → let old = hart_of regs.old (P.bytes port.old) in
        DoesCall (P.span port.old) (read_of (P.span port.old) old) (task old brk) result (task (hart_of regs.new (P.bytes port.new)) brk) (streams (use_of I.left I.faults input.old input.new) output) }
    ensures span { P.span port.new ≡ P.span port.old }
    ensures stops { P.stops port.old ≤ P.stops port.new }
    ensures cause { StopIsJustified (P.stops port.old) (P.stops port.new) (P.crowded port.new) result }
    ensures faults { I.faults input.old ≤ I.faults input.new }
    ensures made { let old = hart_of regs.old (P.bytes port.old) in let request = read_of (P.span port.old) old in
        MadeInOrder P.did_touch P.did_poke port.old (lines_of_request (P.span port.old) old request) (pokes_of_request (P.span port.old) request result (hart_of regs.new (P.bytes port.new))) (stop_of_call result) port.new }
{
    let at = regs.x[FIRST + 1];
    let count = regs.x[FIRST + 2].min(LINE_BYTES - at % LINE_BYTES);
    if regs.x[FIRST] != 0 {
        return answer(regs, EBADF);
    }
    if count == 0 {
        return answer(regs, 0);
    }
    if !port.span().has(at) {
        return answer(regs, EFAULT);
    }
    read_line(regs, port, input, at, count)
}

/// Reads at most so many bytes to an address. They do not leave its line.
fn read_line<P: Port, I: Source>(
    regs: &mut Regs,
    port: &mut P,
    input: &mut I,
    at: u32,
    count: u32,
) -> Called
    requires has { Has (P.span port.old) at }
    requires within { at % 64 + count ≤ 64 }
    ensures did { (brk : Brk) (output : Stream) → IsUntouched output → let old = hart_of regs.old (P.bytes port.old) in
        DoesCall (P.span port.old) (Read at count) (task old brk) result (task (hart_of regs.new (P.bytes port.new)) brk) (streams (use_of I.left I.faults input.old input.new) output) }
    ensures span { P.span port.new ≡ P.span port.old }
    ensures stops { P.stops port.old ≤ P.stops port.new }
    ensures cause { StopIsJustified (P.stops port.old) (P.stops port.new) (P.crowded port.new) result }
    ensures faults { I.faults input.old ≤ I.faults input.new }
    ensures made { MadeInOrder P.did_touch P.did_poke port.old (line_at (P.span port.old) at ∷ []) (pokes_of_request (P.span port.old) (Read at count) result (hart_of regs.new (P.bytes port.new))) (stop_of_call result) port.new }
{
    let line = port.span().line_of(at);
    if let Err(refusal) = port.touch(line) {
        return Called::Stop(refusal);
    }
    let mut buffer = [0; LINE_BYTES as usize];
    match input.read(&mut buffer[..count as usize]) {
        Ok(got) => fill(regs, port, at, &buffer[..got]),
        Err(_) => Called::InFault,
    }
}

/// Puts what a read got into the held line, from an address of it on, and answers its number.
fn fill<P: Port>(regs: &mut Regs, port: &mut P, at: u32, got: &[u8]) -> Called
    requires has { Has (P.span port.old) at }
    requires within { at % 64 + length got.now ≤ 64 }
    requires held { IsHeld (P.held port.old) (line_at (P.span port.old) at) }
    requires sized { length (P.bytes port.old) ≡ 4096 * (P.span port.old).pages }
    ensures done { result ≡ called.Done }
    ensures hart { hart_of regs.new (P.bytes port.new) ≡ answered (filled (P.span port.old) (hart_of regs.old (P.bytes port.old)) at got.now) (length got.now) }
    ensures span { P.span port.new ≡ P.span port.old }
    ensures stops { P.stops port.new ≡ P.stops port.old }
    ensures made { PortMade P.did_touch P.did_poke port.old (poke_calls (pokes_of_request (P.span port.old) (Read at (length got.now)) result (hart_of regs.new (P.bytes port.new)))) port.new }
{
    scatter(port, at, got);
    answer(regs, got.len() as u32)
}

/// Writes at most 4,096 bytes of the guest's to the output, whose files are 1 and 2. All bytes are gathered before
/// the output is asked.
fn write<P: Port, O: Sink>(regs: &mut Regs, port: &mut P, out: &mut O) -> Called
    ensures did { (brk : Brk) (input : Stream) → IsUntouched input → let old = hart_of regs.old (P.bytes port.old) in
        DoesCall (P.span port.old) (write_of (P.span port.old) old) (task old brk) result (task (hart_of regs.new (P.bytes port.new)) brk) (streams input (use_of O.written O.faults out.old out.new)) }
    ensures span { P.span port.new ≡ P.span port.old }
    ensures stops { P.stops port.old ≤ P.stops port.new }
    ensures cause { StopIsJustified (P.stops port.old) (P.stops port.new) (P.crowded port.new) result }
    ensures faults { O.faults out.old ≤ O.faults out.new }
    ensures made { let old = hart_of regs.old (P.bytes port.old) in let request = write_of (P.span port.old) old in
        MadeInOrder P.did_touch P.did_poke port.old (lines_of_request (P.span port.old) old request) [] (stop_of_call result) port.new }
{
    let file = regs.x[FIRST];
    let at = regs.x[FIRST + 1];
    let count = regs.x[FIRST + 2].min(MOST_BYTES);
    if file != 1 && file != 2 {
        return answer(regs, EBADF);
    }
    if count == 0 {
        return answer(regs, 0);
    }
    if !has_bytes(&port.span(), at, count) {
        return answer(regs, EFAULT);
    }
    let mut buffer = [0; MOST_BYTES as usize];
    let bytes = &mut buffer[..count as usize];
    if let Err(refusal) = gather(port, at, bytes) {
        return Called::Stop(refusal);
    }
    match out.write(bytes) {
        Ok(()) => answer(regs, count),
        Err(_) => Called::OutFault,
    }
}
