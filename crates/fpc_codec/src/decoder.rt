// The words that a row of bits begins with codes of, and the line that words are.

ghost use Rattle.std.specs.Prelude.{◌≡◌, ◌↔◌, ℕ, ◌<◌, ◌≤◌, ◌+◌, ◌*◌, ◌++◌, List, length, Some, IfSome, IfNone, IsFalse, replicate};
ghost use Rattle.std.specs.Int.{to_le_bytes, w32};
ghost use Rattle.std.specs.Bool.{OnTrue};
ghost use Rattle.arrayvec.specs.ArrayVec.{array_vec_len};
ghost use Rattle.fpc_codec.specs.Bits.{number_of, row_left};
ghost use Rattle.fpc_codec.specs.Codes.{IsCode, words_of_code, code_bits, code_row};
ghost use Rattle.fpc_codec.specs.Line.{BeginsWithCodes, line_of};

use crate::bit_rows::BitReader;
use crate::codes::{Code, Pattern};
use arrayvec::ArrayVec;

/// The sixteen words that a front of the bytes is codes of.
pub fn decode_words(bytes: &[u8]) -> Option<[u32; 16]>
    ensures { (words : List ℕ) → length words ≡ 16
        → (result ≡ Some words)
        ↔ BeginsWithCodes (number_of bytes.now) (8 * length bytes.now) words }
{
    let mut reader = BitReader::new(bytes);
    let mut out = ArrayVec::new();
    while out.len() < 16 {
        let Some(code) = read_code(&mut reader) else {
            return None;
        };
        if !push_words(&mut out, code) {
            return None;
        }
    }
    out.into_inner().ok()
}

fn read_code(reader: &mut BitReader<'_>) -> Option<Code>
    ensures none { IfNone result ((words : List ℕ) → 0 < length words → ¬ BeginsWithCodes
        (row_left reader.old.count reader.old.pending reader.old.rest.now)
        (reader.old.count + 8 * length reader.old.rest.now) words) }
    ensures code { IfSome result IsCode }
    ensures value { IfSome result (λ code.
        row_left reader.old.count reader.old.pending reader.old.rest.now
        ≡ code_row code (row_left reader.new.count reader.new.pending reader.new.rest.now)) }
    ensures bits { IfSome result (λ code.
        reader.new.count + 8 * length reader.new.rest.now + code_bits code
        ≡ reader.old.count + 8 * length reader.old.rest.now) }
{
    let Some(prefix) = reader.take(3) else {
        return None;
    };
    let pattern = Pattern::from_prefix(prefix as u8);
    let Some(payload) = reader.take(pattern.payload_bits()) else {
        return None;
    };
    Some(Code {
        pattern,
        payload: payload as u32,
    })
}

// Appends the words of a code, and says whether there was room for them.
fn push_words(out: &mut ArrayVec<u32, 16>, code: Code) -> bool
    requires { IsCode code }
    ensures full { IsFalse result → 16 < array_vec_len out.old + length (words_of_code code) }
    ensures items { OnTrue result (out.new.items ≡ out.old.items ++ words_of_code code) }
    ensures room { array_vec_len out.new ≤ 16 }
    ensures grows { OnTrue result (array_vec_len out.old < array_vec_len out.new) }
{
    let run = code.run();
    if run > 16 - out.len() {
        return false;
    }
    push_times(out, code.word(), run);
    true
}

fn push_times(out: &mut ArrayVec<u32, 16>, word: u32, count: usize)
    requires { array_vec_len out.old + count ≤ 16 }
    ensures items { out.new.items ≡ out.old.items ++ replicate count word }
    ensures len { array_vec_len out.new ≡ array_vec_len out.old + count }
{
    for _ in 0..count {
        out.push(word);
    }
}

/// The bytes of the words, of each the least significant one first.
#[tactic(auto, unfolding(crate::specs::Line::line_of))]
pub fn line_of(words: &[u32; 16]) -> [u8; 64]
    ensures { result ≡ line_of words.now }
{
    let mut line = ArrayVec::new();
    for word in words {
        push_word(&mut line, *word);
    }
    line.into_inner().unwrap()
}

fn push_word(line: &mut ArrayVec<u8, 64>, word: u32)
    requires { array_vec_len line.old + 4 ≤ 64 }
    ensures items { line.new.items ≡ line.old.items ++ to_le_bytes w32 word }
    ensures len { array_vec_len line.new ≡ array_vec_len line.old + 4 }
{
    for byte in word.to_le_bytes() {
        line.push(byte);
    }
}
