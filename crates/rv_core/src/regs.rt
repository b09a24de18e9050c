// The registers of the hart.
ghost use Rattle.std.specs.Prelude.{◌≡◌, slice_index};

/// The program counter and the registers x0 to x31, of which x0 is 0 (RISC-V unprivileged manual, RV32I,
/// "Programmers' Model").
#[derive(Clone, Copy, Debug)]
pub struct Regs {
    pub pc: u32,
    pub x: [u32; 32],
    ghost zero: { slice_index x 0 ≡ 0 },
}

impl Regs {
    ghost use Rattle.std.specs.Prelude.{◌≡◌, ◌<◌, slice_index};
    ghost use Rattle.rv_core.specs.Hart.{written};

    /// What a register holds.
    pub(crate) fn get(&self, number: u8) -> u32
        requires { number < 32 }
        ensures { result ≡ slice_index self.now.x number }
    {
        self.x[number as usize]
    }

    /// Writes a register. x0 stays 0.
    pub(crate) fn set(&mut self, rd: u8, value: u32)
        requires { rd < 32 }
        ensures x { self.new.x ≡ written self.old.x rd value }
        ensures pc { self.new.pc ≡ self.old.pc }
    {
        if rd != 0 {
            self.x[rd as usize] = value;
        }
    }
}
