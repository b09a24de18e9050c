use super::*;
use crate::alu::{is_branch_taken, shifted, with_immediate, with_register};
use hier_types::{Access, Geometry, LineNo, NoSpace, Port};
use rv_decode::{BranchOp, ImmOp, RegOp, ShiftOp};

/// One page of memory, which holds whatever line is touched.
#[derive(Drop)]
struct PagePort {
    bytes: [u8; 4096],
    geometry: Geometry,
    held: Option<u32>,
    ghost sized: { length bytes ≡ 4096 },
    ghost span_is: { geometry ≡ record { base = 16; pages = 1 } },
}

ghost use Rattle.std.specs.Prelude.{◌≡◌, length};

impl Port for PagePort {
    ghost span = { λ p. p.geometry };

    ghost bytes = { λ p. p.bytes };

    ghost held = { λ p. p.held };

    ghost stops = { λ p. 0 };

    ghost crowded = { λ p refusal. ⊥ };

    ghost did_touch = { λ old line answer new. Unit {0} };

    ghost did_poke = { λ old at byte new. Unit {0} };

    fn span(&self) -> Geometry {
        self.geometry
    }

    fn touch(&mut self, line: LineNo) -> Result<(), NoSpace> {
        self.held = Some(line.0);
        Ok(())
    }

    fn peek(&self, at: u32) -> u8 {
        self.bytes[(at - self.geometry.first()) as usize]
    }

    fn poke(&mut self, at: u32, byte: u8) {
        self.bytes[(at - self.geometry.first()) as usize] = byte;
    }
}

impl PagePort {
    /// Puts a word to its place, where the page has it.
    fn put(&mut self, index: usize, word: u32) {
        if index < 1024 {
            let at = 4 * index;
            self.bytes[at..at + 4].copy_from_slice(&word.to_le_bytes());
        }
    }
}

/// The page of these words, which begins at 00010000.
fn page_of(words: &[u32]) -> PagePort {
    let mut page = PagePort {
        bytes: [0; 4096],
        geometry: Geometry { base: 16, pages: 1 },
        held: None,
    };
    for (index, word) in words.iter().enumerate() {
        page.put(index, *word);
    }
    page
}

/// pc at the first word, x5 and x6 as given, and every other register 0.
fn registers(five: u32, six: u32) -> Regs {
    let mut x = [0; 32];
    x[5] = five;
    x[6] = six;
    Regs { pc: 0x1_0000, x }
}

/// Operands at the edges: zero, one, minus one, the least and the greatest number, amounts of a shift.
const PAIRS: [(u32, u32); 12] = [
    (7, 0),
    (0, 0xffff_ffff),
    (1, 0x7fff_ffff),
    (0xffff_ffff, 1),
    (0xffff_ffff, 0xffff_ffff),
    (0x8000_0000, 0),
    (0x8000_0000, 0xffff_ffff),
    (0x8000_0000, 0x1f),
    (0x8000_0000, 0x20),
    (0x7fff_ffff, 0x7fff_ffff),
    (0x7fff_ffff, 0x8000_0000),
    (0xffff_fff9, 2),
];

#[test]
fn operations_on_two_registers(rt: HostRuntime) {
    for (op, values) in [
        (
            RegOp::Add,
            [
                7,
                0xffff_ffff,
                0x8000_0000,
                0,
                0xffff_fffe,
                0x8000_0000,
                0x7fff_ffff,
                0x8000_001f,
                0x8000_0020,
                0xffff_fffe,
                0xffff_ffff,
                0xffff_fffb,
            ],
        ),
        (
            RegOp::Sub,
            [
                7,
                1,
                0x8000_0002,
                0xffff_fffe,
                0,
                0x8000_0000,
                0x8000_0001,
                0x7fff_ffe1,
                0x7fff_ffe0,
                0,
                0xffff_ffff,
                0xffff_fff7,
            ],
        ),
        (
            RegOp::Sll,
            [
                7,
                0,
                0x8000_0000,
                0xffff_fffe,
                0x8000_0000,
                0x8000_0000,
                0,
                0,
                0x8000_0000,
                0x8000_0000,
                0x7fff_ffff,
                0xffff_ffe4,
            ],
        ),
        (RegOp::Slt, [0, 0, 1, 1, 0, 1, 1, 1, 1, 0, 0, 1]),
        (RegOp::Sltu, [0, 1, 1, 0, 0, 0, 1, 0, 0, 0, 1, 0]),
        (
            RegOp::Xor,
            [
                7,
                0xffff_ffff,
                0x7fff_fffe,
                0xffff_fffe,
                0,
                0x8000_0000,
                0x7fff_ffff,
                0x8000_001f,
                0x8000_0020,
                0,
                0xffff_ffff,
                0xffff_fffb,
            ],
        ),
        (
            RegOp::Srl,
            [
                7,
                0,
                0,
                0x7fff_ffff,
                1,
                0x8000_0000,
                1,
                1,
                0x8000_0000,
                0,
                0x7fff_ffff,
                0x3fff_fffe,
            ],
        ),
        (
            RegOp::Sra,
            [
                7,
                0,
                0,
                0xffff_ffff,
                0xffff_ffff,
                0x8000_0000,
                0xffff_ffff,
                0xffff_ffff,
                0x8000_0000,
                0,
                0x7fff_ffff,
                0xffff_fffe,
            ],
        ),
        (
            RegOp::Or,
            [
                7,
                0xffff_ffff,
                0x7fff_ffff,
                0xffff_ffff,
                0xffff_ffff,
                0x8000_0000,
                0xffff_ffff,
                0x8000_001f,
                0x8000_0020,
                0x7fff_ffff,
                0xffff_ffff,
                0xffff_fffb,
            ],
        ),
        (
            RegOp::And,
            [
                0,
                0,
                1,
                1,
                0xffff_ffff,
                0,
                0x8000_0000,
                0,
                0,
                0x7fff_ffff,
                0,
                0,
            ],
        ),
        (
            RegOp::Mul,
            [
                0,
                0,
                0x7fff_ffff,
                0xffff_ffff,
                1,
                0,
                0x8000_0000,
                0x8000_0000,
                0,
                1,
                0x8000_0000,
                0xffff_fff2,
            ],
        ),
        (
            RegOp::Mulh,
            [
                0,
                0,
                0,
                0xffff_ffff,
                0,
                0,
                0,
                0xffff_fff0,
                0xffff_fff0,
                0x3fff_ffff,
                0xc000_0000,
                0xffff_ffff,
            ],
        ),
        (
            RegOp::Mulhsu,
            [
                0,
                0,
                0,
                0xffff_ffff,
                0xffff_ffff,
                0,
                0x8000_0000,
                0xffff_fff0,
                0xffff_fff0,
                0x3fff_ffff,
                0x3fff_ffff,
                0xffff_ffff,
            ],
        ),
        (
            RegOp::Mulhu,
            [
                0,
                0,
                0,
                0,
                0xffff_fffe,
                0,
                0x7fff_ffff,
                0xf,
                0x10,
                0x3fff_ffff,
                0x3fff_ffff,
                1,
            ],
        ),
        (
            RegOp::Div,
            [
                0xffff_ffff,
                0,
                0,
                0xffff_ffff,
                1,
                0xffff_ffff,
                0x8000_0000,
                0xfbde_f7be,
                0xfc00_0000,
                1,
                0,
                0xffff_fffd,
            ],
        ),
        (
            RegOp::Divu,
            [
                0xffff_ffff,
                0,
                0,
                0xffff_ffff,
                1,
                0xffff_ffff,
                0,
                0x0421_0842,
                0x0400_0000,
                1,
                0,
                0x7fff_fffc,
            ],
        ),
        (
            RegOp::Rem,
            [
                7,
                0,
                1,
                0,
                0,
                0x8000_0000,
                0,
                0xffff_fffe,
                0,
                0,
                0x7fff_ffff,
                0xffff_ffff,
            ],
        ),
        (
            RegOp::Remu,
            [
                7,
                0,
                1,
                0,
                0,
                0x8000_0000,
                0x8000_0000,
                2,
                0,
                0,
                0x7fff_ffff,
                1,
            ],
        ),
    ] {
        for ((a, b), value) in PAIRS.into_iter().zip(values) {
            assert_eq!(rt; with_register(op, a, b), value, "{op:?} of {a:x} and {b:x}");
        }
    }
}

#[test]
fn operations_on_a_register_and_an_immediate(rt: HostRuntime) {
    for (op, a, imm, value) in [
        (ImmOp::Addi, 1, 0xffff_ffff, 0),
        (ImmOp::Slti, 0, 0xffff_ffff, 0),
        (ImmOp::Sltiu, 0, 0xffff_ffff, 1),
        (ImmOp::Xori, 5, 0xffff_ffff, 0xffff_fffa),
        (ImmOp::Ori, 5, 2, 7),
        (ImmOp::Andi, 5, 4, 4),
    ] {
        assert_eq!(rt;
            with_immediate(op, a, imm),
            value,
            "{op:?} of {a:x} and {imm:x}"
        );
    }
    assert_eq!(rt; shifted(ShiftOp::Slli, 3, 31), 0x8000_0000);
    assert_eq!(rt; shifted(ShiftOp::Srli, 0xffff_ffff, 28), 15);
    assert_eq!(rt; shifted(ShiftOp::Srai, 0xf000_0000, 28), 0xffff_ffff);
}

#[test]
fn branches(rt: HostRuntime) {
    for (op, taken) in [
        (BranchOp::Beq, false),
        (BranchOp::Bne, true),
        (BranchOp::Blt, true),
        (BranchOp::Bge, false),
        (BranchOp::Bltu, false),
        (BranchOp::Bgeu, true),
    ] {
        assert_eq!(rt; is_branch_taken(op, 0xffff_ffff, 1), taken, "{op:?}");
    }
}

#[test]
fn instructions_one_after_another(rt: HostRuntime) {
    let mut port = page_of(&[
        0x0253_2e23, // sw x5, 60(x6)
        0x03c3_0383, // lb x7, 60(x6)
        0x03c3_5403, // lhu x8, 60(x6)
        0x0062_9463, // bne x5, x6, 8
        0x0000_0000,
        0x00c0_00ef, // jal x1, 12
        0x0000_0000,
        0x0000_0000,
        0x0000_0073, // ecall
    ]);
    let mut regs = registers(0x0102_8380, 0x1_0000);
    for pc in [0x1_0004, 0x1_0008, 0x1_000c, 0x1_0014, 0x1_0020] {
        assert_eq!(rt; step(&mut regs, &mut port), Ok(Did::Retired));
        assert_eq!(rt; regs.pc, pc);
    }
    assert_eq!(rt; step(&mut regs, &mut port), Ok(Did::Call));
    assert_eq!(rt; regs.pc, 0x1_0020);
    assert_eq!(rt;
        [regs.x[1], regs.x[7], regs.x[8]],
        [0x1_0018, 0xffff_ff80, 0x8380]
    );
}

#[test]
fn exceptions(rt: HostRuntime) {
    for (pc, word, cause, value) in [
        (0x1_0002, 0, 0, 0x1_0002),
        (0x1_1000, 0, 1, 0x1_1000),
        (0x1_0000, 0, 2, 0),
        (0x1_0000, 0x0010_0073, 3, 0x1_0000), // ebreak
        (0x1_0000, 0x0010_2083, 4, 1), // lw x1, 1(x0)
        (0x1_0000, 0x0000_2083, 5, 0), // lw x1, 0(x0)
        (0x1_0000, 0x0000_10a3, 6, 1), // sh x0, 1(x0)
        (0x1_0000, 0x0000_2023, 7, 0), // sw x0, 0(x0)
        (0x1_0000, 0x0060_00ef, 0, 0x1_0006), // jal x1, 6
    ] {
        let mut port = page_of(&[word]);
        let mut regs = registers(0, 0);
        regs.pc = pc;
        let trap = Ended::Trap(Trap { cause, pc, value });
        assert_eq!(rt; step(&mut regs, &mut port), Err(trap));
        assert_eq!(rt; regs.pc, pc);
        assert_eq!(rt; regs.x, [0; 32]);
    }
}

/// Each row has the address and the width, the value that is stored if it is a store, and the answer.
#[test]
fn accesses_of_each_width(rt: HostRuntime) {
    let mut port = page_of(&[]);
    for (at, width, stored, answer) in [
        (0x1_0040, 4, Some(0x8283_8485), 0),
        (0x1_0040, 4, None, 0x8283_8485),
        (0x1_0040, 2, None, 0x8485),
        (0x1_0043, 1, None, 0x82),
        (0x1_0042, 2, Some(0xffff_0102), 0),
        (0x1_0040, 4, None, 0x0102_8485),
        (0x1_0041, 1, Some(0xffff_ff03), 0),
        (0x1_0040, 4, None, 0x0102_0385),
    ] {
        let asked = match stored {
            Some(value) => Access::Store { at, width, value },
            None => Access::Load { at, width },
        };
        assert_eq!(rt; access(&mut port, &asked), Ok(answer), "{asked:?}");
    }
}
