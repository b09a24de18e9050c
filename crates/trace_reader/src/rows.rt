// Rows of a trace, one after another.
ghost use Rattle.std.specs.Prelude.{◌≡◌, ℕ, ◌∷◌, [], ◌+◌, ◌<◌, ◌≤◌, ◌^◌, MatchOption, IfSome, length};
ghost use Rattle.std.specs.Str.Lines.{strip_carriage_return};
ghost use Rattle.trace_reader.specs.Rows.{is_passed_over, numbered, numbered_rows, rows_of};

use crate::parts::cut;

/// A row that is not passed over, its number, and the bytes behind it.
#[derive(Clone, Copy, Debug)]
pub struct Row<'a> {
    pub number: u64,
    pub text: &'a [u8],
    pub behind: &'a [u8],
}

/// The first row that is not passed over, where the first of all has the number given.
#[tactic(auto, unfolding(crate::specs::Rows::numbered_rows))]
pub fn next_row(mut left: &[u8], mut number: u64) -> Option<Row<'_>>
    requires { number + length left.now ≤ 2 ^ 63 }
    ensures row { MatchOption result (numbered_rows number left.now ≡ [])
        (λ row. numbered_rows number left.now ≡ (row.number, row.text.now) ∷ numbered_rows (row.number + 1) row.behind.now) }
    ensures fits { IfSome result (λ row. row.number + 1 + length row.behind.now ≤ number + length left.now) }
{
    while !left.is_empty() {
        let (text, behind) = cut_row(left);
        if !is_passed_over(text) {
            return Some(Row {
                number,
                text,
                behind,
            });
        }
        left = behind;
        number += 1;
    }
    None
}

/// The first row, without its end, and the bytes behind it.
#[tactic(auto, unfolding(crate::specs::Rows::numbered_rows))]
fn cut_row(bytes: &[u8]) -> (&[u8], &[u8])
    requires { 0 < length bytes.now }
    ensures rows { (number : ℕ) → numbered_rows number bytes.now ≡ numbered number (result.0.now ∷ rows_of result.1.now) }
    ensures shorter { length result.1.now < length bytes.now }
{
    let (text, behind) = cut(bytes, b'\n');
    let text = without_return(text);
    match behind {
        Some(behind) => (text, behind),
        None => (text, &[]),
    }
}

fn without_return(text: &[u8]) -> &[u8]
    ensures { result.now ≡ strip_carriage_return text.now }
{
    match text {
        [front @ .., b'\r'] => front,
        _ => text,
    }
}

/// Whether a row is empty or a comment.
fn is_passed_over(row: &[u8]) -> bool
    ensures { result ≡ is_passed_over row.now }
{
    match row {
        [] => true,
        [first, ..] => *first == b'#',
    }
}
