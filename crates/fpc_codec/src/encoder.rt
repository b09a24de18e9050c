// The bytes of the least codes of a line.

ghost use Rattle.std.specs.Prelude.{◌≡◌, ℕ, ◌≤◌, ◌+◌, ◌*◌};
ghost use Rattle.arrayvec.specs.ArrayVec.{array_vec_len};
ghost use Rattle.fpc_codec.specs.Bits.{filled};
ghost use Rattle.fpc_codec.specs.Codes.{IsCode, code_bits, code_row};
ghost use Rattle.fpc_codec.specs.Line.{bits_of, encoding_of};

use crate::bit_rows::BitWriter;
use crate::codes::Code;
use crate::scanner::first_code;
use arrayvec::ArrayVec;

/// The bits of the line's least codes, in bytes.
pub fn packed_codes(line: &[u8; 64]) -> ArrayVec<u8, 64>
    requires { bits_of line.now ≤ 504 }
    ensures { result.items ≡ encoding_of line.now }
{
    let mut writer = BitWriter::new();
    let mut rest: &[u8] = line;
    while let Some((code, behind)) = first_code(rest) {
        write_code(&mut writer, code);
        rest = behind;
    }
    writer.into_bytes()
}

// Puts the prefix and then the payload behind the bits that are there.
fn write_code(writer: &mut BitWriter, code: Code)
    requires is_code { IsCode code }
    requires room { 8 * array_vec_len writer.old.bytes + writer.old.count + code_bits code ≤ 512 }
    ensures bits { 8 * array_vec_len writer.new.bytes + writer.new.count
        ≡ 8 * array_vec_len writer.old.bytes + writer.old.count + code_bits code }
    ensures written { (total behind : ℕ) → array_vec_len writer.new.bytes ≤ total
        → filled writer.new.bytes.items writer.new.count writer.new.pending total behind
        ≡ filled writer.old.bytes.items writer.old.count writer.old.pending total
        (code_row code behind) }
{
    writer.put(u64::from(code.pattern.prefix()), 3);
    writer.put(u64::from(code.payload), code.pattern.payload_bits());
}
