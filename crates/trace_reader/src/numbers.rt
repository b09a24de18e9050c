// Numbers in a row.
ghost use Rattle.std.specs.Prelude.{◌≡◌, ◌≤◌, ◌<◌, IfSome, true, length};
ghost use Rattle.std.specs.Char.{digit_value, is_ascii_hexdigit};
ghost use Rattle.std.specs.Str.Parse.{digits_value};
ghost use Rattle.std.specs.List.{list_all};
ghost use Rattle.trace_reader.specs.Fields.{is_number, number_of, width_of};

use crate::parts::is_only;

const RADIX: u32 = 16;

/// The number of 1 to `most` hexadecimal digits of either case.
#[tactic(auto, unfolding(crate::specs::Fields::number_of))]
pub fn number_of(field: &[u8], most: usize) -> Option<u32>
    requires { most ≤ 8 }
    ensures { result ≡ number_of most field.now }
{
    if !is_number(field, most) {
        return None;
    }
    Some(digits_value(field))
}

fn is_number(field: &[u8], most: usize) -> bool
    ensures { result ≡ is_number most field.now }
{
    !field.is_empty() && field.len() <= most && is_hexadecimal(field)
}

fn is_hexadecimal(field: &[u8]) -> bool
    ensures { result ≡ list_all is_ascii_hexdigit field.now }
{
    field.iter().all(|digit| digit.is_ascii_hexdigit())
}

/// The number that hexadecimal digits write.
fn digits_value(digits: &[u8]) -> u32
    requires few { length digits.now ≤ 8 }
    requires hexadecimal { list_all is_ascii_hexdigit digits.now ≡ true }
    ensures { result ≡ digits_value 16 digits.now }
{
    let mut value = 0;
    for digit in digits {
        value = value * RADIX + digit_value(*digit);
    }
    value
}

fn digit_value(digit: u8) -> u32
    requires { is_ascii_hexdigit digit ≡ true }
    ensures value { result ≡ digit_value digit }
    ensures small { result < 16 }
{
    match digit {
        b'0'..=b'9' => u32::from(digit - b'0'),
        b'a'..=b'f' => u32::from(digit - b'a') + 10,
        _ => u32::from(digit - b'A') + 10,
    }
}

/// A width in bytes, written as `1`, `2` or `4`.
#[tactic(auto, unfolding(crate::specs::Fields::width_of))]
pub fn width_of(field: &[u8]) -> Option<u8>
    ensures width { result ≡ width_of field.now }
    ensures small { IfSome result (λ width. (0 < width) × (width ≤ 4)) }
{
    if is_only(field, b'1') {
        return Some(1);
    }
    if is_only(field, b'2') {
        return Some(2);
    }
    if is_only(field, b'4') {
        return Some(4);
    }
    None
}
