// One instruction over a port.
ghost use Rattle.std.specs.Prelude.{◌≡◌, ◌≢◌, ◌⊎◌, ◌-◌, ◌<◌, ◌%◌, [], false, OnOk, IfErr};
ghost use Rattle.hier_types.specs.PortCalls.{MadeInOrder};
ghost use Rattle.hier_types.specs.Span.{Has, has};
ghost use Rattle.rv_decode.specs.Ranges.{Fits};
ghost use Rattle.rv_core.specs.Answers.{Answers, StopsWithCause, hart_of};
ghost use Rattle.rv_core.specs.Effect.{effect_at, effect_of, loads, stores};
ghost use Rattle.rv_core.specs.Hart.{sum, written};
ghost use Rattle.rv_core.specs.Operations.{load_width, store_bytes, store_width};
ghost use Rattle.rv_core.specs.Touched.{data_line, data_lines, data_pokes, poked, pokes_of, stop_of, touched};

use crate::alu::{extended, is_branch_taken, shifted, with_immediate, with_register};
use crate::data::{loaded_from, store_to, touch_at, width_of_load, width_of_store, word_from};
use crate::regs::Regs;
use crate::traps::Trap;
use hier_types::{NoSpace, Port};
use rv_decode::{Instr, LoadOp, StoreOp, decode};

/// What an instruction did.
#[derive(Clone, Copy, Debug, PartialEq, Eq)]
pub enum Did {
    /// It was done, and pc is that of the next one.
    Retired,
    /// ECALL stands at pc, and nothing but held lines changed.
    Call,
}

/// Why an instruction was not done. Registers and bytes are as before it.
#[derive(Clone, Copy, Debug, PartialEq, Eq)]
pub enum Ended {
    /// An exception.
    Trap(Trap),
    /// A touch was refused.
    Stop(NoSpace),
}

/// One instruction of RV32IM or Zifencei, at pc.
#[tactic(auto, unfolding(crate::specs::Effect::effect_at, crate::specs::Touched::touched, crate::specs::Touched::poked), using(crate::proofs::Stops::stops_later, crate::proofs::Lines::made_in_order))]
pub fn step<P: Port>(regs: &mut Regs, port: &mut P) -> Result<Did, Ended>
    ensures step { let old = hart_of regs.old (P.bytes port.old) in Answers (effect_at (P.span port.old) old) old result (hart_of regs.new (P.bytes port.new)) }
    ensures span { P.span port.new ≡ P.span port.old }
    ensures cause { StopsWithCause (P.stops port.old) (P.stops port.new) (P.crowded port.new) result }

    // The touches and pokes that it makes, and no other.
    ensures made { let old = hart_of regs.old (P.bytes port.old) in
        MadeInOrder P.did_touch P.did_poke port.old (touched (P.span port.old) old) (poked (P.span port.old) old) (stop_of result) port.new }
{
    let pc = regs.pc;
    if pc % 4 != 0 {
        return Err(Ended::Trap(Trap {
            cause: 0,
            pc,
            value: pc,
        }));
    }
    if !port.span().has(pc) {
        return Err(Ended::Trap(Trap {
            cause: 1,
            pc,
            value: pc,
        }));
    }
    if let Err(refusal) = touch_at(port, pc) {
        return Err(Ended::Stop(refusal));
    }
    let word = word_from(port, pc);
    match decode(word) {
        None => Err(Ended::Trap(Trap {
            cause: 2,
            pc,
            value: word,
        })),
        Some(instr) => execute(instr, regs, port),
    }
}

/// What the instruction at pc does, after its own line was touched.
fn execute<P: Port>(instr: Instr, regs: &mut Regs, port: &mut P) -> Result<Did, Ended>
    requires { Fits instr }
    ensures step { let old = hart_of regs.old (P.bytes port.old) in Answers (effect_of (P.span port.old) instr old) old result (hart_of regs.new (P.bytes port.new)) }
    ensures span { P.span port.new ≡ P.span port.old }
    ensures cause { StopsWithCause (P.stops port.old) (P.stops port.new) (P.crowded port.new) result }
    ensures made { let old = hart_of regs.old (P.bytes port.old) in
        MadeInOrder P.did_touch P.did_poke port.old (data_lines (P.span port.old) instr old) (pokes_of (P.span port.old) instr old) (stop_of result) port.new }
{
    let pc = regs.pc;
    match instr {
        Instr::Lui { rd, imm } => Ok(advance(regs, rd, imm)),
        Instr::Auipc { rd, imm } => Ok(advance(regs, rd, pc.wrapping_add(imm))),
        Instr::Jal { rd, off } => {
            jump(regs, rd, pc.wrapping_add(off.cast_unsigned()))?;
            Ok(Did::Retired)
        }
        Instr::Jalr { rd, rs1, imm } => {
            let target = regs.get(rs1).wrapping_add(extended(imm));
            jump(regs, rd, target - target % 2)?;
            Ok(Did::Retired)
        }
        Instr::Branch { op, rs1, rs2, off } => {
            if is_branch_taken(op, regs.get(rs1), regs.get(rs2)) {
                jump(regs, 0, pc.wrapping_add(extended(off)))?;
                return Ok(Did::Retired);
            }
            Ok(advance(regs, 0, 0))
        }
        Instr::Load { op, rd, rs1, imm } => {
            let at = regs.get(rs1).wrapping_add(extended(imm));
            load(regs, port, op, rd, at)
        }
        Instr::Store { op, rs1, rs2, imm } => {
            let at = regs.get(rs1).wrapping_add(extended(imm));
            let value = regs.get(rs2);
            store(regs, port, op, value, at)
        }
        Instr::Imm { op, rd, rs1, imm } => {
            let value = with_immediate(op, regs.get(rs1), extended(imm));
            Ok(advance(regs, rd, value))
        }
        Instr::Shift { op, rd, rs1, by } => {
            let value = shifted(op, regs.get(rs1), u32::from(by));
            Ok(advance(regs, rd, value))
        }
        Instr::Reg { op, rd, rs1, rs2 } => {
            let value = with_register(op, regs.get(rs1), regs.get(rs2));
            Ok(advance(regs, rd, value))
        }
        Instr::Fence => Ok(advance(regs, 0, 0)),
        Instr::FenceI => Ok(advance(regs, 0, 0)),
        Instr::Ecall => Ok(Did::Call),
        Instr::Ebreak => Err(Ended::Trap(Trap {
            cause: 3,
            pc,
            value: pc,
        })),
    }
}

/// Writes a register and goes on to the next instruction.
fn advance(regs: &mut Regs, rd: u8, value: u32) -> Did
    requires { rd < 32 }
    ensures did { result ≡ Did.Retired }
    ensures x { regs.new.x ≡ written regs.old.x rd value }
    ensures pc { regs.new.pc ≡ sum regs.old.pc 4 }
{
    regs.set(rd, value);
    regs.pc = regs.pc.wrapping_add(4);
    Did::Retired
}

/// Goes on at the target, and leaves the address of the next instruction in a register; or traps.
fn jump(regs: &mut Regs, rd: u8, target: u32) -> Result<(), Ended>
    requires { rd < 32 }
    ensures ok { OnOk result ((target % 4 ≡ 0) × (regs.new.pc ≡ target) × (regs.new.x ≡ written regs.old.x rd (sum regs.old.pc 4))) }
    ensures err { IfErr result (λ ended. (target % 4 ≢ 0) × (ended ≡ Ended.Trap (record { cause = 0; pc = regs.old.pc; value = target })) × (regs.new ≡ regs.old)) }
{
    if target % 4 != 0 {
        return Err(Ended::Trap(Trap {
            cause: 0,
            pc: regs.pc,
            value: target,
        }));
    }
    let link = regs.pc.wrapping_add(4);
    regs.set(rd, link);
    regs.pc = target;
    Ok(())
}

/// Traps where the address of an access is not a multiple of its width, or not in the span.
fn check_access<P: Port>(
    port: &P,
    pc: u32,
    at: u32,
    width: u32,
    misaligned: u8,
    outside: u8,
) -> Result<(), Ended>
    requires { 0 < width }
    ensures ok { OnOk result ((at % width ≡ 0) × Has (P.span port.now) at) }
    ensures err { IfErr result (λ ended. ((at % width ≢ 0) × (ended ≡ Ended.Trap (record { cause = misaligned; pc = pc; value = at }))) ⊎ ((at % width ≡ 0) × (has (P.span port.now) at ≡ false) × (ended ≡ Ended.Trap (record { cause = outside; pc = pc; value = at })))) }
{
    if at % width != 0 {
        return Err(Ended::Trap(Trap {
            cause: misaligned,
            pc,
            value: at,
        }));
    }
    if !port.span().has(at) {
        return Err(Ended::Trap(Trap {
            cause: outside,
            pc,
            value: at,
        }));
    }
    Ok(())
}

/// Loads into a register.
#[tactic(auto, using(crate::proofs::Lines::made_in_order))]
fn load<P: Port>(regs: &mut Regs, port: &mut P, op: LoadOp, rd: u8, at: u32) -> Result<Did, Ended>
    requires { rd < 32 }
    ensures step { let old = hart_of regs.old (P.bytes port.old) in Answers (loads (P.span port.old) op rd at old) old result (hart_of regs.new (P.bytes port.new)) }
    ensures span { P.span port.new ≡ P.span port.old }
    ensures cause { StopsWithCause (P.stops port.old) (P.stops port.new) (P.crowded port.new) result }
    ensures made { MadeInOrder P.did_touch P.did_poke port.old (data_line (P.span port.old) (load_width op) at) [] (stop_of result) port.new }
{
    check_access(port, regs.pc, at, width_of_load(op), 4, 5)?;
    if let Err(refusal) = touch_at(port, at) {
        return Err(Ended::Stop(refusal));
    }
    let value = loaded_from(port, op, at);
    Ok(advance(regs, rd, value))
}

/// Stores the low bytes of a value.
#[tactic(auto, using(crate::proofs::Lines::made_in_order))]
fn store<P: Port>(
    regs: &mut Regs,
    port: &mut P,
    op: StoreOp,
    value: u32,
    at: u32,
) -> Result<Did, Ended>
    ensures step { let old = hart_of regs.old (P.bytes port.old) in Answers (stores (P.span port.old) op value at old) old result (hart_of regs.new (P.bytes port.new)) }
    ensures span { P.span port.new ≡ P.span port.old }
    ensures cause { StopsWithCause (P.stops port.old) (P.stops port.new) (P.crowded port.new) result }
    ensures made { MadeInOrder P.did_touch P.did_poke port.old (data_line (P.span port.old) (store_width op) at) (data_pokes (P.span port.old) (store_width op) at (store_bytes op value)) (stop_of result) port.new }
{
    check_access(port, regs.pc, at, width_of_store(op), 6, 7)?;
    if let Err(refusal) = touch_at(port, at) {
        return Err(Ended::Stop(refusal));
    }
    store_to(port, op, at, value);
    Ok(advance(regs, 0, 0))
}
