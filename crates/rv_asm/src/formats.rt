// The six formats: a row and the fields at their places. A row has bits only in its opcode, funct3 and funct7, so it
// is at most their mask. The parts of a word stand apart, so their sum is their union, of which a proof knows less.

ghost use Rattle.std.specs.Prelude.{◌≡◌, ◌+◌, ◌<◌, ◌≤◌, ◌%◌, ◌^◌};
ghost use Rattle.rv_asm.specs.Encoding.{r_fields, i_fields, s_fields, b_fields, u_fields, j_fields};

pub fn r_word(row: u32, rd: u8, rs1: u8, rs2: u8) -> u32
    requires row { row ≤ 0xfe00_707f }
    requires rd { rd < 32 }
    requires rs1 { rs1 < 32 }
    requires rs2 { rs2 < 32 }
    ensures { result ≡ row + r_fields rd rs1 rs2 }
{
    row + ((rd as u32) << 7) + ((rs1 as u32) << 15) + ((rs2 as u32) << 20)
}

pub fn i_word(row: u32, rd: u8, rs1: u8, imm: i16) -> u32
    requires row { row ≤ 0x707f }
    requires rd { rd < 32 }
    requires rs1 { rs1 < 32 }
    ensures { result ≡ row + i_fields rd rs1 imm }
{
    let number = (imm as i32).cast_unsigned();
    row + ((rd as u32) << 7) + ((rs1 as u32) << 15) + ((number & 0xfff) << 20)
}

pub fn s_word(row: u32, rs1: u8, rs2: u8, imm: i16) -> u32
    requires row { row ≤ 0x707f }
    requires rs1 { rs1 < 32 }
    requires rs2 { rs2 < 32 }
    ensures { result ≡ row + s_fields rs1 rs2 imm }
{
    let number = (imm as i32).cast_unsigned();
    row + ((number & 0x1f) << 7)
        + ((rs1 as u32) << 15)
        + ((rs2 as u32) << 20)
        + ((number >> 5 & 0x7f) << 25)
}

pub fn b_word(row: u32, rs1: u8, rs2: u8, off: i16) -> u32
    requires row { row ≤ 0x707f }
    requires rs1 { rs1 < 32 }
    requires rs2 { rs2 < 32 }
    ensures { result ≡ row + b_fields rs1 rs2 off }
{
    let number = (off as i32).cast_unsigned();
    row + ((number >> 11 & 1) << 7)
        + ((number >> 1 & 0xf) << 8)
        + ((rs1 as u32) << 15)
        + ((rs2 as u32) << 20)
        + ((number >> 5 & 0x3f) << 25)
        + ((number >> 12 & 1) << 31)
}

pub fn u_word(row: u32, rd: u8, imm: u32) -> u32
    requires row { row ≤ 0x7f }
    requires rd { rd < 32 }
    ensures { result ≡ row + u_fields rd imm }
{
    row + ((rd as u32) << 7) + (imm & 0xffff_f000)
}

pub fn j_word(row: u32, rd: u8, off: i32) -> u32
    requires row { row ≤ 0x7f }
    requires rd { rd < 32 }
    ensures { result ≡ row + j_fields rd off }
{
    let number = off.cast_unsigned();
    row + ((rd as u32) << 7)
        + ((number >> 12 & 0xff) << 12)
        + ((number >> 11 & 1) << 20)
        + ((number >> 1 & 0x3ff) << 21)
        + ((number >> 20 & 1) << 31)
}
