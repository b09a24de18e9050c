// The least code that words can begin with.

ghost use Rattle.std.specs.Prelude.{◌≡◌, ◌⊎◌, ◌≤◌, ◌+◌, ◌++◌, [], ◌∷◌, IfSome, IfNone, length, replicate};
ghost use Rattle.fpc_codec.specs.Codes.{IsCode};
ghost use Rattle.fpc_codec.specs.Least.{BeginsWithZero, least_codes};
ghost use Rattle.fpc_codec.specs.Line.{words_of};

use crate::codes::{Code, Pattern};

/// The least code of the words that the bytes begin with, and the bytes behind those words.
pub fn first_code(bytes: &[u8]) -> Option<(Code, &[u8])>
    ensures none { IfNone result (words_of bytes.now ≡ []) }
    ensures first { IfSome result (λ r.
        least_codes (words_of bytes.now) ≡ r.0 ∷ least_codes (words_of r.1.now)) }
    ensures is_code { IfSome result (λ r. IsCode r.0) }
    ensures shorter { IfSome result (λ r. length r.1.now + 4 ≤ length bytes.now) }
{
    let Some((word, behind)) = first_word(bytes) else {
        return None;
    };
    if word != 0 {
        return Some((Code::least_for(word), behind));
    }
    let (more, behind) = zero_words(behind);
    let code = Code {
        pattern: Pattern::ZeroRun,
        payload: more,
    };
    Some((code, behind))
}

// The word that the bytes begin with, and the bytes behind it.
#[tactic(auto, unfolding(crate::specs::Line::words_of))]
fn first_word(bytes: &[u8]) -> Option<(u32, &[u8])>
    ensures none { IfNone result (words_of bytes.now ≡ []) }
    ensures first { IfSome result (λ r. words_of bytes.now ≡ r.0 ∷ words_of r.1.now) }
    ensures shorter { IfSome result (λ r. length r.1.now + 4 ≡ length bytes.now) }
{
    let Some((word, behind)) = bytes.split_first_chunk::<4>() else {
        return None;
    };
    Some((u32::from_le_bytes(*word), behind))
}

// How many zero words the bytes begin with, up to seven, and the bytes behind those.
fn zero_words(bytes: &[u8]) -> (u32, &[u8])
    ensures words { words_of bytes.now ≡ replicate result.0 0 ++ words_of result.1.now }
    ensures below { result.0 ≤ 7 }
    ensures longest { (result.0 ≡ 7) ⊎ ¬ BeginsWithZero (words_of result.1.now) }
    ensures no_longer { length result.1.now ≤ length bytes.now }
{
    let mut count = 0;
    let mut rest = bytes;
    while count < 7 {
        let Some((0, behind)) = first_word(rest) else {
            return (count, rest);
        };
        count += 1;
        rest = behind;
    }
    (count, rest)
}
