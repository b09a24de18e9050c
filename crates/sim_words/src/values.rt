// The values that a command line gives.
ghost use Rattle.std.specs.Prelude.{◌≡◌, ◌≤◌, IfSome, List, length, map};
ghost use Rattle.std.specs.Char.{is_ascii_digit};
ghost use Rattle.std.specs.List.{list_all, list_any};
ghost use Rattle.hier_types.specs.Settings.{IsPowerOfTwo};
ghost use Rattle.sim_words.specs.Values.{beat_of, beats_of, codec_of, is_beat_letter, is_number, number_within, power_within, within};

use arrayvec::ArrayVec;
use hier_types::{Beat, BeatWord, Codec};

/// Whether each letter is a decimal digit.
fn has_digits_only(text: &str) -> bool
    ensures { result ≡ list_all is_ascii_digit text.now }
{
    text.as_bytes().iter().all(|letter| letter.is_ascii_digit())
}

/// Whether the text is 1 to 20 decimal digits and nothing else.
fn is_number(text: &str) -> bool
    ensures { result ≡ is_number text.now }
{
    if text.is_empty() || text.len() > 20 {
        return false;
    }
    has_digits_only(text)
}

/// The number that the text writes in decimal digits, where it is from `low` to `high`.
pub(crate) fn number_within(text: &str, low: u64, high: u64) -> Option<u64>
    ensures rule { result ≡ number_within low high text.now }
    ensures range { IfSome result (λ n. (low ≤ n) × (n ≤ high)) }
{
    if !is_number(text) {
        return None;
    }
    match text.parse::<u64>() {
        Ok(number) => within(number, low, high),
        Err(_) => None,
    }
}

/// The number, where it is from `low` to `high`.
fn within(number: u64, low: u64, high: u64) -> Option<u64>
    ensures rule { result ≡ within low high number }
    ensures range { IfSome result (λ n. (low ≤ n) × (n ≤ high)) }
{
    if low <= number && number <= high {
        Some(number)
    } else {
        None
    }
}

/// The power of two that the text writes, where it is at most `most`.
#[tactic(auto, using(crate::proofs::PowerLemmas::power_of_two))]
pub(crate) fn power_within(text: &str, most: u64) -> Option<u64>
    ensures rule { result ≡ power_within most text.now }
    ensures range { IfSome result (λ n. n ≤ most) }
    ensures power { IfSome result (IsPowerOfTwo most) }
{
    let number = number_within(text, 1, most)?;
    if number.is_power_of_two() {
        Some(number)
    } else {
        None
    }
}

/// The codec of a name.
pub(crate) fn codec_of(text: &str) -> Option<Codec>
    ensures { result ≡ codec_of text.now }
{
    if text == "bdi" {
        Some(Codec::Bdi)
    } else if text == "fpc" {
        Some(Codec::Fpc)
    } else {
        None
    }
}

/// Whether a beat has this letter.
fn is_beat_letter(letter: u8) -> bool
    ensures { result ≡ is_beat_letter letter }
{
    letter == b'h' || letter == b'm' || letter == b'c'
}

/// The beat of a letter.
fn beat_of(letter: u8) -> Beat
    ensures { result ≡ beat_of letter }
{
    if letter == b'h' {
        Beat::Hart
    } else if letter == b'm' {
        Beat::Mover
    } else {
        Beat::Cleaner
    }
}

/// The beats of some letters, at most 64.
fn beats_from(letters: &[u8]) -> ArrayVec<Beat, 64>
    requires { length letters.now ≤ 64 }
    ensures { result.items ≡ map beat_of letters.now }
{
    let mut beats = ArrayVec::new();
    for letter in letters {
        beats.push(beat_of(*letter));
    }
    beats
}

/// Whether each letter is one of a beat.
fn has_beats_only(text: &str) -> bool
    ensures { result ≡ list_all is_beat_letter text.now }
{
    text.as_bytes().iter().all(|letter| is_beat_letter(*letter))
}

/// The word of beats that the letters `h`, `m` and `c` write.
pub(crate) fn beats_of(text: &str) -> Option<BeatWord>
    ensures { result ≡ beats_of text.now }
{
    if text.len() > 64 || !has_beats_only(text) {
        return None;
    }
    BeatWord::new(beats_from(text.as_bytes()).as_slice())
}
