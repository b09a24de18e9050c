// The hart with what a program has besides: its break, and how many of its instructions retired.
ghost use Rattle.std.specs.Prelude.{◌≡◌, ◌-◌, ◌^◌, ◌<◌, ◌≤◌, ℕ, List};
ghost use Rattle.hier_types.specs.PortCalls.{MadeInOrder};
ghost use Rattle.hier_types.specs.Streams.{FaultsStay, went};
ghost use Rattle.rv_core.specs.Effect.{Calls};
ghost use Rattle.rv_guest.specs.Beside.{guest_at};
ghost use Rattle.rv_guest.specs.Lines.{lines_at, lines_of_effect, pokes_at, pokes_of_effect, stop_of_beat};
ghost use Rattle.rv_guest.specs.Start.{start_state};
ghost use Rattle.rv_guest.specs.State.{code_at, state_of};
ghost use Rattle.rv_guest.specs.Steps.{DoesBeat, IsJustified};

use crate::ends::MachineEnd;
use hier_types::{Geometry, Port, Sink, Source};
use rv_core::{Did, Ended, Regs, step};
use sys_shim::{Brk, Called, call};

/// The stack pointer.
const STACK: usize = 2;

/// The bytes that are kept free at the span's end.
const RESERVED: u32 = 64;

/// A program, but for its memory.
#[derive(Debug, Drop)]
pub struct Guest {
    pub regs: Regs,
    pub brk: Brk,
    /// How many instructions retired.
    pub retired: u64,
}

impl Guest {
    /// A guest at the beginning of its program: pc is its entry, x2 is 64 bytes below the span's end, and every other
    /// register is 0. The break is the image's end, and goes up to x2.
    pub fn start(entry: u32, end: u32, geometry: &Geometry) -> Self
        requires some { 1 ≤ geometry.now.pages }
        ensures { (bytes : List ℕ) → state_of result bytes ≡ start_state geometry.now entry end bytes }
    {
        let high = geometry.past() - RESERVED;
        let mut x = [0; 32];
        x[STACK] = high;
        Guest {
            regs: Regs { pc: entry, x },
            brk: Brk {
                low: end,
                top: end,
                high,
            },
            retired: 0,
        }
    }

    /// One instruction, calls included. How the code is read stays. A trap, a refused touch and a fault of a stream leave registers, bytes and
    /// break as before.
    #[tactic(auto, unfolding(crate::specs::State::code_at))]
    pub fn beat<P: Port, I: Source, O: Sink>(
        &mut self,
        port: &mut P,
        input: &mut I,
        out: &mut O,
    ) -> Option<MachineEnd>
        requires room { self.old.retired < 2 ^ 64 - 1 }
        ensures did { DoesBeat (guest_at (P.span port.old) (state_of self.old (P.bytes port.old))) (state_of self.old (P.bytes port.old)) result (state_of self.new (P.bytes port.new)) (went I.left I.faults O.written O.faults input.old input.new out.old out.new) }
        ensures span { P.span port.new ≡ P.span port.old }
        ensures code { code_at (P.span port.new) (state_of self.new (P.bytes port.new)) ≡ code_at (P.span port.old) (state_of self.old (P.bytes port.old)) }
        ensures stops { P.stops port.old ≤ P.stops port.new }
        ensures cause { IsJustified (P.stops port.old) (P.stops port.new) (P.crowded port.new) result }
        ensures faults { FaultsStay (went I.left I.faults O.written O.faults input.old input.new out.old out.new) }

        // The touches and pokes that it makes, and no other.
        ensures made { let old = state_of self.old (P.bytes port.old) in let new = state_of self.new (P.bytes port.new) in
            let code = code_at (P.span port.old) old in
            MadeInOrder P.did_touch P.did_poke port.old (lines_at code old) (pokes_at code old result new.hart) (stop_of_beat result) port.new }
    {
        match step(&mut self.regs, port) {
            Ok(Did::Retired) => {
                self.retired += 1;
                None
            }
            Ok(Did::Call) => self.call(port, input, out),
            Err(Ended::Trap(trap)) => Some(MachineEnd::Trap(trap)),
            Err(Ended::Stop(refusal)) => Some(MachineEnd::Space(refusal)),
        }
    }

    /// The call at which the hart stands.
    #[tactic(auto, unfolding(crate::specs::State::code_at))]
    fn call<P: Port, I: Source, O: Sink>(
        &mut self,
        port: &mut P,
        input: &mut I,
        out: &mut O,
    ) -> Option<MachineEnd>
        requires room { self.old.retired < 2 ^ 64 - 1 }
        requires stands { let old = state_of self.old (P.bytes port.old) in (code_at (P.span port.old) old).effect old.hart ≡ Calls }
        ensures did { DoesBeat (guest_at (P.span port.old) (state_of self.old (P.bytes port.old))) (state_of self.old (P.bytes port.old)) result (state_of self.new (P.bytes port.new)) (went I.left I.faults O.written O.faults input.old input.new out.old out.new) }
        ensures span { P.span port.new ≡ P.span port.old }
        ensures code { code_at (P.span port.new) (state_of self.new (P.bytes port.new)) ≡ code_at (P.span port.old) (state_of self.old (P.bytes port.old)) }
        ensures stops { P.stops port.old ≤ P.stops port.new }
        ensures cause { IsJustified (P.stops port.old) (P.stops port.new) (P.crowded port.new) result }
        ensures faults { FaultsStay (went I.left I.faults O.written O.faults input.old input.new out.old out.new) }
        ensures made { let old = state_of self.old (P.bytes port.old) in let new = state_of self.new (P.bytes port.new) in
            let code = code_at (P.span port.old) old in
            MadeInOrder P.did_touch P.did_poke port.old (lines_of_effect code old Calls) (pokes_of_effect code old Calls result new.hart) (stop_of_beat result) port.new }
    {
        match call(&mut self.regs, port, input, out, &mut self.brk) {
            Called::Done => {
                self.retired += 1;
                None
            }
            Called::Exit(status) => {
                self.retired += 1;
                Some(MachineEnd::Exit(status))
            }
            Called::InFault => Some(MachineEnd::InFault),
            Called::OutFault => Some(MachineEnd::OutFault),
            Called::Stop(refusal) => Some(MachineEnd::Space(refusal)),
        }
    }
}
