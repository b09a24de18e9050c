// The set, and how its words and their summary are kept.
ghost use Rattle.std.specs.Prelude.{◌≡◌, ◌<◌, ◌==◌, ℕ, length, slice_index, if◌then◌else◌, IfOk, MatchOption};
ghost use Rattle.std.specs.Int.{bit_at};
ghost use Rattle.number_set.specs.Numbers.{has, bit_of, Puts, IsLowestBit, IsLeast};

use std::alloc::{AllocError, Global};
use std::marker::Model;

/// A set of numbers below 65,536: a bit for each, in 1,024 words of 64 bits, and above them a bit for each word that is
/// not 0. It takes 8,320 bytes, whatever its numbers are.
#[derive(Debug, Drop)]
pub struct NumberSet {
    words: Vec<u64>,
    summary: Vec<u64>,
}

impl Model for NumberSet {
    ghost use Rattle.std.specs.Prelude.{ℕ, List};
    ghost use Rattle.number_set.specs.Numbers.{IsSummed};

    ghost Value = { List ℕ };

    ghost view = { λ set. set.words.items };

    ghost invariant = { λ set. IsSummed set.words.items set.summary.items };
}

/// So many words that are 0.
fn zero_words(alloc: Global, count: usize) -> Result<Vec<u64>, AllocError>
    ensures count { IfOk result (λ v. length v.items ≡ count) }
    ensures zero { IfOk result (λ v. (i : ℕ) → slice_index v.items i ≡ 0) }
{
    let words = vec![in alloc; 0u64; count]?;
    Ok(words)
}

/// The word with one bit set or cleared.
fn with_bit(word: u64, at: u32, on: bool) -> u64
    requires { at < 64 }
    ensures { (i : ℕ) → i < 64 → bit_at result i ≡ (if i == at then bit_of on else bit_at word i) }
{
    if on {
        return word | (1u64 << at);
    }
    word & !(1u64 << at)
}

/// The place of the lowest 1 of a word.
fn lowest_bit(word: u64) -> u32
    requires { 0 < word }
    ensures { IsLowestBit word result }
{
    word.trailing_zeros()
}

/// Brings the summary up to date after a word became another.
fn sum_up(summary: &mut Vec<u64>, index: usize, word: u64)
    requires words { length summary.old.items ≡ 16 }
    requires within { index < 1024 }
    ensures words { length summary.new.items ≡ 16 }
    ensures here { has summary.new.items index ≡ (if word == 0 then 0 else 1) }
    ensures others { (i : ℕ) → i < 1024 → (i ≡ index → ⊥) → has summary.new.items i ≡ has summary.old.items i }
{
    let at = (index % 64) as u32;
    let next = with_bit(summary[index / 64], at, word != 0);
    summary[index / 64] = next;
}

impl NumberSet {
    /// The set with no number. It fails only where no memory is left.
    pub fn new(alloc: Global) -> Result<NumberSet, AllocError>
        ensures { IfOk result (λ set. (n : ℕ) → has set n ≡ 0) }
    {
        let words = zero_words(alloc, 1024)?;
        let summary = zero_words(alloc, 16)?;
        Ok(NumberSet { words, summary })
    }

    /// Puts a number below 65,536 into the set where `on`, else takes it out, whether or not the set had it.
    pub fn put(&mut self, number: u32, on: bool)
        requires { number < 65536 }
        ensures { Puts self.old number on self.new }
    {
        let index = (number / 64) as usize;
        let next = with_bit(self.words[index], number % 64, on);
        self.words[index] = next;
        sum_up(&mut self.summary, index, next);
    }

    /// Whether the set has a number below 65,536.
    pub fn has(&self, number: u32) -> bool
        requires { number < 65536 }
        ensures { has self.now number ≡ bit_of result }
    {
        (self.words[(number / 64) as usize] >> (number % 64)) & 1 == 1
    }

    /// The least number of the set, or none where it has no number. It reads at most 17 words.
    pub fn first(&self) -> Option<u32>
        ensures { MatchOption result ((n : ℕ) → n < 65536 → has self.now n ≡ 0) (IsLeast self.now) }
    {
        for (i, word) in self.summary.iter().enumerate() {
            if *word != 0 {
                let index = (i as u32) * 64 + lowest_bit(*word);
                return Some(index * 64 + lowest_bit(self.words[index as usize]));
            }
        }
        None
    }
}
