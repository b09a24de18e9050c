// Traces of loads and stores, made over the memory hierarchy.
ghost use Rattle.std.specs.Prelude.{◌≡◌, ◌≢◌, ◌<◌, ◌≤◌, ◌^◌, ◌++◌, ◌-◌, ◌*◌, [], false, drop, IfSome, OnErr, OnOk};
ghost use Rattle.std.specs.Io.KnownBytes.{Appends};
ghost use Rattle.hier_types.specs.Causes.{HasCause};
ghost use Rattle.hier_types.specs.Outside.{AppendsFront};
ghost use Rattle.hier_types.specs.Settings.{AreWithinRules};
ghost use Rattle.hier_types.specs.declared.beats.Beat.TheVariants.{Hart};
ghost use Rattle.hier_types.specs.Streams.{FaultsStay, IsUntouched, Stream, streams, use_of, went};
ghost use Rattle.page_store.specs.Store.{sizing_of};
ghost use Rattle.rv_core.specs.Accesses.{IsAccess, width_of};
ghost use Rattle.run_report.specs.Texts as texts;
ghost use Rattle.hier_machine.specs.Memory.{store_of};
ghost use Rattle.hier_machine.specs.Traces.{IsLoad, MakesAccess, PassesTurn, TraceBeats, trace_stands};
ghost use Rattle.hier_cli.specs.Notices.{IsTellable};
ghost use Rattle.hier_cli.specs.Traces.{EndsTraceFile, IsFaultless, IsTraceEnd, accesses_left, printed, with_next};

use crate::notice::Notice;
use beat_runs::{Runner, run};
use hier_machine::{Machine, TraceEnd};
use hier_types::{Access, Beat, Failed, Settings, Sink, Source};
use run_report::{End, hex_digit};
use std::alloc::Global;
use std::marker::Model;
use trace_reader::{TraceRows, check};

/// Makes the accesses of the trace in a file, and reports. A trace with a fault makes none.
pub(crate) fn run_trace<I: Source, O: Sink>(
    alloc: Global,
    file: Vec<u8>,
    settings: &Settings,
    input: &mut I,
    out: &mut O,
) -> Notice
    requires { AreWithinRules settings.now }
    ensures ends { EndsTraceFile settings.now (went I.left I.faults O.written O.faults input.old input.new out.old out.new) file.items result }
    ensures tellable { IsTellable result }
{
    if let Err(fault) = check(&file, settings.geometry) {
        return Notice::Ended(End::BadTrace { fault });
    }
    let Ok(machine) = Machine::open_empty(alloc, settings) else {
        return Notice::Ended(End::NoMemory);
    };
    let mut rows = TraceRows::new(&file, settings.geometry);
    let next = next_access(&mut rows);
    let mut trace = Trace {
        machine,
        rows,
        next,
    };
    let end = run(&mut trace, &settings.beats, settings.budget, input, out);
    let told = told(&trace.machine, end);
    Notice::Reported(trace.machine.report(told))
}

/// The end of a trace as the program's: of a refused block it tells the page, the order and what is free now.
fn told(machine: &Machine, end: TraceEnd) -> End
    ensures { IsTraceEnd machine.now.memory.span (store_of machine.now.memory) end result }
{
    match end {
        TraceEnd::Done => End::Done,
        TraceEnd::Budget => End::Budget,
        TraceEnd::Space(refusal) => machine.space(refusal),
        TraceEnd::OutFault => End::OutFault,
    }
}

/// A trace without a fault, over a machine of zeros, with the access that is next.
#[derive(Drop)]
struct Trace<'a> {
    machine: Machine,
    rows: TraceRows<'a>,
    next: Option<Access>,
}

impl<'a> Model for Trace<'a> {
    ghost use Rattle.std.specs.Prelude.{◌≡◌, IfSome};
    ghost use Rattle.rv_core.specs.Accesses.{IsAccess};
    ghost use Rattle.hier_machine.specs.Traces.{TraceState};
    ghost use Rattle.hier_cli.specs.Traces.{IsFaultless, accesses_left, with_next};

    ghost Value = { TraceState };

    ghost view = { λ t. record { machine = t.machine; left = with_next t.next (accesses_left t.rows) } };

    ghost invariant = { λ t. IsFaultless t.rows × (t.rows.span ≡ t.machine.memory.span) × IfSome t.next (IsAccess t.machine.memory.span) };
}

impl Trace<'_> {
    /// Makes the next access, and prints its value where it is a load.
    fn make_access<O: Sink>(&mut self, out: &mut O) -> Option<TraceEnd>
        requires running { self.old.machine.ended ≡ false }
        requires room { self.old.machine.guest.retired < 2 ^ 64 - 1 }
        requires left { self.old.left ≢ [] }
        ensures makes { (input : Stream) → IsUntouched input → MakesAccess printed (sizing_of (store_of self.old.machine.memory)) self.old result self.new (streams input (use_of O.written O.faults out.old out.new)) }
        ensures running { self.new.machine.ended ≡ false }
        ensures faults { O.faults out.old ≤ O.faults out.new }
    {
        let Some(access) = self.next else {
            unreachable!();
        };
        let value = match self.machine.beat_access(&access) {
            Ok(value) => value,
            Err(refusal) => return Some(TraceEnd::Space(refusal)),
        };
        self.next = next_access(&mut self.rows);
        if let Err(Failed) = print_access(&access, value, out) {
            return Some(TraceEnd::OutFault);
        }
        None
    }

    /// A turn of the mover or the cleaner, which leaves the accesses.
    fn pass_turn<I: Source, O: Sink>(
        &mut self,
        beat: Beat,
        input: &mut I,
        out: &mut O,
    ) -> Option<TraceEnd>
        requires running { self.old.machine.ended ≡ false }
        requires room { self.old.machine.guest.retired < 2 ^ 64 - 1 }
        requires idle { beat ≢ Hart }
        ensures passes { PassesTurn (sizing_of (store_of self.old.machine.memory)) beat self.old result self.new (went I.left I.faults O.written O.faults input.old input.new out.old out.new) }
        ensures running { self.new.machine.ended ≡ false }
        ensures faults { FaultsStay (went I.left I.faults O.written O.faults input.old input.new out.old out.new) }
    {
        let _none = self.machine.beat(beat, input, out);
        None
    }
}

impl Runner for Trace<'_> {
    type End = TraceEnd;

    ghost retired = { λ t. t.machine.guest.retired };

    ghost ready = { λ t. t.machine.ended ≡ false };

    ghost may = { λ t. (t.machine.ended ≡ false) × (t.machine.guest.retired < 2 ^ 64 - 1) × (t.left ≢ []) };

    ghost stands = { trace_stands };

    ghost does = { λ beat old result new streams. TraceBeats printed (sizing_of (store_of old.machine.memory)) beat old result new streams };

    fn stand(&mut self, budget: u64) -> Option<TraceEnd> {
        if self.next.is_none() {
            return Some(TraceEnd::Done);
        }
        if self.machine.retired() < budget {
            return None;
        }
        Some(TraceEnd::Budget)
    }

    fn beat<I: Source, O: Sink>(
        &mut self,
        beat: Beat,
        input: &mut I,
        out: &mut O,
    ) -> Option<TraceEnd> {
        match beat {
            Beat::Hart => self.make_access(out),
            Beat::Mover => self.pass_turn(beat, input, out),
            Beat::Cleaner => self.pass_turn(beat, input, out),
        }
    }
}

/// The next access of a trace without a fault.
fn next_access(rows: &mut TraceRows<'_>) -> Option<Access>
    requires { IsFaultless rows.old }
    ensures left { accesses_left rows.old ≡ with_next result (accesses_left rows.new) }
    ensures access { IfSome result (IsAccess rows.old.span) }
    ensures faultless { IsFaultless rows.new }
    ensures span { rows.new.span ≡ rows.old.span }
{
    match rows.read_row() {
        Ok(access) => access,
        Err(_) => unreachable!(),
    }
}

/// Prints what an access gave.
fn print_access<O: Sink>(access: &Access, value: u32, out: &mut O) -> Result<(), Failed>
    requires { width_of access.now ≤ 4 }
    ensures ok { OnOk result (Appends (O.written out.old) (O.written out.new) (printed access.now value)) }
    ensures err { OnErr result (AppendsFront (O.written out.old) (O.written out.new) (printed access.now value)) }
    ensures load { OnErr result (IsLoad access.now) }
    ensures cause { HasCause (O.faults out.old) (O.faults out.new) result }
{
    match *access {
        Access::Load { width, .. } => print_value(value, width, out),
        Access::Store { .. } => Ok(()),
    }
}

/// Prints a value of so many bytes in hexadecimal digits, in a line of its own.
fn print_value<O: Sink>(value: u32, width: u8, out: &mut O) -> Result<(), Failed>
    requires { width ≤ 4 }
    ensures ok { OnOk result (Appends (O.written out.old) (O.written out.new) (drop (8 - 2 * width) (texts.address value ++ texts.line_feed))) }
    ensures err { OnErr result (AppendsFront (O.written out.old) (O.written out.new) (drop (8 - 2 * width) (texts.address value ++ texts.line_feed))) }
    ensures cause { HasCause (O.faults out.old) (O.faults out.new) result }
{
    let line = [
        hex_digit(value, 28),
        hex_digit(value, 24),
        hex_digit(value, 20),
        hex_digit(value, 16),
        hex_digit(value, 12),
        hex_digit(value, 8),
        hex_digit(value, 4),
        hex_digit(value, 0),
        b'\n',
    ];
    out.write(&line[8 - 2 * usize::from(width)..])
}
