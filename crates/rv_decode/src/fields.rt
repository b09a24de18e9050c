// The fields and immediates of a word.

ghost use Rattle.std.specs.Prelude.{◌≡◌, ◌<◌, ◌≤◌, ◌*◌, ◌^◌};
ghost use Rattle.rv_decode.specs.Word.{signed_by, opcode_of, rd_of, funct3_of, rs1_of, rs2_of, funct7_of, imm_i_of, imm_s_of, imm_b_of, imm_u_of, imm_j_of};

// The number below `2 * half` in two's complement.
fn sign_extend(number: u32, half: u32) -> i32
    requires below { number < 2 * half }
    requires room { half ≤ 2 ^ 20 }
    ensures { result ≡ signed_by half number }
{
    if number < half {
        number as i32
    } else {
        number as i32 - 2 * half as i32
    }
}

pub fn opcode(word: u32) -> u8
    ensures { result ≡ opcode_of word }
{
    (word & 0x7f) as u8
}

pub fn rd(word: u32) -> u8
    ensures { result ≡ rd_of word }
{
    (word >> 7 & 0x1f) as u8
}

pub fn funct3(word: u32) -> u8
    ensures { result ≡ funct3_of word }
{
    (word >> 12 & 7) as u8
}

pub fn rs1(word: u32) -> u8
    ensures { result ≡ rs1_of word }
{
    (word >> 15 & 0x1f) as u8
}

pub fn rs2(word: u32) -> u8
    ensures { result ≡ rs2_of word }
{
    (word >> 20 & 0x1f) as u8
}

pub fn funct7(word: u32) -> u8
    ensures { result ≡ funct7_of word }
{
    (word >> 25) as u8
}

pub fn imm_i(word: u32) -> i16
    ensures { result ≡ imm_i_of word }
{
    sign_extend(word >> 20, 1 << 11) as i16
}

pub fn imm_s(word: u32) -> i16
    ensures { result ≡ imm_s_of word }
{
    sign_extend(word >> 25 << 5 | word >> 7 & 0x1f, 1 << 11) as i16
}

// The parts stand apart, so their sum is their union, of which a proof knows less.
pub fn imm_b(word: u32) -> i16
    ensures { result ≡ imm_b_of word }
{
    let number = (word >> 31 << 12)
        + ((word >> 7 & 1) << 11)
        + ((word >> 25 & 0x3f) << 5)
        + ((word >> 8 & 0xf) << 1);
    sign_extend(number, 1 << 12) as i16
}

pub fn imm_u(word: u32) -> u32
    ensures { result ≡ imm_u_of word }
{
    word & 0xffff_f000
}

pub fn imm_j(word: u32) -> i32
    ensures { result ≡ imm_j_of word }
{
    let number = (word >> 31 << 20)
        + ((word >> 12 & 0xff) << 12)
        + ((word >> 20 & 1) << 11)
        + ((word >> 21 & 0x3ff) << 1);
    sign_extend(number, 1 << 20)
}
