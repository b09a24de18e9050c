//! Frequent pattern compression of lines of 64 bytes (Alameldeen and Wood, Wisconsin TR 1500).
//! Contracts see a line as sixteen words, an encoding as a list of codes, and bytes as their bits.
//! It never allocates, and what follows the sixteenth word of an encoding never matters.
#![tactic(auto)]

mod bit_rows;
mod codes;
mod decoder;
mod encoder;
mod scanner;
#[cfg(test)]
mod tests;

ghost use Rattle.std.specs.Prelude.{◌≡◌, ◌↔◌, ℕ, ◌≤◌, ◌++◌, List, Some, IfSome, IsNone, MatchOption};
ghost use Rattle.arrayvec.specs.ArrayVec.{array_vec_len};
ghost use Rattle.fpc_codec.specs.Least.{AreLeastCodes};
ghost use Rattle.fpc_codec.specs.Line.{words_of, codes_of, bits_of, size_of, encoding_of, Means};

use crate::decoder::{decode_words, line_of};
use crate::encoder::packed_codes;
use crate::scanner::first_code;
use arrayvec::ArrayVec;

/// Bits of the line's least codes: 12 for a line of zeros, at most 560. It is one pass over the line's
/// sixteen words, and makes no bytes.
pub fn fpc_bits(line: &[u8; 64]) -> u16
    ensures bits { result ≡ bits_of line.now }
    ensures at_least { 12 ≤ result }
    ensures at_most { result ≤ 560 }

    // The codes that are counted are the least ones.
    ensures least_codes { AreLeastCodes (words_of line.now) (codes_of line.now) }
{
    let mut rest: &[u8] = line;
    let mut bits = 0;
    while let Some((code, behind)) = first_code(rest) {
        bits += code.bits();
        rest = behind;
    }
    bits
}

/// The size of the line in bytes, 2 to 64: its bits divided by 8 and rounded up, or 64 where the
/// codes would save no byte. It costs what `fpc_bits` does.
#[tactic(auto, unfolding(crate::specs::Line::size_of))]
pub fn fpc_size(line: &[u8; 64]) -> u8
    ensures size { result ≡ size_of line.now }
    ensures at_least { 2 ≤ result }
    ensures at_most { result ≤ 64 }
{
    fpc_bits(line).div_ceil(8).min(64) as u8
}

/// The line's least codes in `fpc_size(line)` bytes, or `None` where that size is 64.
#[tactic(auto, unfolding(crate::specs::Line::size_of))]
pub fn fpc_encode(line: &[u8; 64]) -> Option<ArrayVec<u8, 64>>
    ensures none { IsNone result ↔ (size_of line.now ≡ 64) }
    ensures encoding { IfSome result (λ bytes. bytes.items ≡ encoding_of line.now) }
    ensures size { IfSome result (λ bytes. array_vec_len bytes ≡ size_of line.now) }

    // Whatever bytes follow, the encoding means the line.
    ensures reads_back { (behind : List ℕ)
        → IfSome result (λ bytes. Means (bytes.items ++ behind) line.now) }
{
    if fpc_size(line) == 64 {
        return None;
    }
    Some(packed_codes(line))
}

/// The line that the bytes say, or `None` where they do not begin with codes of exactly sixteen
/// words. The codes need not be the least ones, and what follows the sixteenth word is not read.
pub fn fpc_decode(bytes: &[u8]) -> Option<[u8; 64]>
    ensures meaning { MatchOption result ((line : List ℕ) → ¬ Means bytes.now line)
        (λ line. Means bytes.now line) }
    ensures only { (line : List ℕ) → Means bytes.now line → result ≡ Some line }
{
    let Some(words) = decode_words(bytes) else {
        return None;
    };
    Some(line_of(&words))
}
