ghost use Rattle.std.specs.Prelude.{◌≡◌, ◌≤◌, ◌+◌, ◌==◌, All, IfSome, find, length, not};
ghost use Rattle.std.specs.List.{list_all};
ghost use Rattle.bdi_codec.specs.Deltas.{is_small, base_of, are_near};
ghost use Rattle.bdi_codec.specs.Rows.{IsRow, IsLeastRow, least_row, size_of, mask_size_of, are_equal};

use crate::elements::elements;
use crate::shape::{B2D1, B4D1, B4D2, B8D1, B8D2, B8D4, Shape, shape_of};

/// The row of a line of zeros.
pub const ZEROS: u8 = 0;

/// The row of a line that repeats one element of eight bytes.
pub const REPEATED: u8 = 1;

/// The row of a line that is kept as it is.
pub const PLAIN: u8 = 15;

fn is_zeros(line: &[u8; 64]) -> bool
    ensures { result ≡ list_all (λ b. b == 0) line.now }
{
    line.iter().all(|b| *b == 0)
}

fn are_equal(elements: &[u64]) -> bool
    requires { 1 ≤ length elements.now }
    ensures { result ≡ are_equal elements.now }
{
    let first = elements[0];
    elements.iter().all(|n| *n == first)
}

fn first_large(shape: Shape, elements: &[u64]) -> Option<u64>
    requires { All (λ n. n ≤ shape.top) elements.now }
    ensures value { result ≡ find (λ n. not (is_small (shape.top + 1) shape.half n)) elements.now }
    ensures below { IfSome result (λ n. n ≤ shape.top) }
{
    elements.iter().copied().find(|n| !shape.is_small(*n))
}

/// The element from which the others are subtracted.
pub fn base(shape: Shape, elements: &[u64]) -> u64
    requires { All (λ n. n ≤ shape.top) elements.now }
    ensures value { result ≡ base_of (shape.top + 1) shape.half elements.now }
    ensures below { result ≤ shape.top }
{
    first_large(shape, elements).unwrap_or(0)
}

fn are_near(shape: Shape, elements: &[u64]) -> bool
    requires { All (λ n. n ≤ shape.top) elements.now }
    ensures { result ≡ are_near (shape.top + 1) shape.half elements.now }
{
    let base = base(shape, elements);
    for n in elements {
        if !shape.is_near(base, *n) {
            return false;
        }
    }
    true
}

/// The row of least size that applies to the line: 0 to 7, or 15 where the line is kept as it is.
///
/// Reads the line's bytes at most once for each width of an element, and goes over the elements at most twice
/// for each row with deltas, up to the first element that breaks the row. A line of zeros and a repeated
/// element are found first. Makes no payload.
#[tactic(auto, unfolding(crate::specs::Rows::applies, crate::specs::Rows::least_row, crate::specs::Deltas::deltas_apply, crate::specs::Rows::size_of))]
pub fn bdi_row(line: &[u8; 64]) -> u8
    ensures value { result ≡ least_row line.now }
    ensures least { IsLeastRow line.now result }
    ensures known { IsRow result }
{
    if is_zeros(line) {
        return ZEROS;
    }
    let eights = elements(8, line);
    if are_equal(eights.as_slice()) {
        return REPEATED;
    }
    if are_near(B8D1, eights.as_slice()) {
        return B8D1.row;
    }
    let fours = elements(4, line);
    if are_near(B4D1, fours.as_slice()) {
        return B4D1.row;
    }
    if are_near(B8D2, eights.as_slice()) {
        return B8D2.row;
    }
    let twos = elements(2, line);
    if are_near(B2D1, twos.as_slice()) {
        return B2D1.row;
    }
    if are_near(B4D2, fours.as_slice()) {
        return B4D2.row;
    }
    if are_near(B8D4, eights.as_slice()) {
        return B8D4.row;
    }
    PLAIN
}

/// The bytes of a row's payload, 1 to 64; they do not count the mask.
#[tactic(auto, unfolding(crate::specs::Rows::size_of))]
pub fn row_size(row: u8) -> u8
    requires { IsRow row }
    ensures value { result ≡ size_of row }
    ensures low { 1 ≤ result }
    ensures high { result ≤ 64 }
{
    if let Some(shape) = shape_of(row) {
        return (shape.width + shape.delta * shape.count()) as u8;
    }
    match row {
        ZEROS => 1,
        REPEATED => 8,
        _ => 64,
    }
}

/// The bytes of a row's mask: a bit for each element of a row with deltas, and none for the other rows.
#[tactic(auto, unfolding(crate::specs::Rows::mask_size_of))]
pub fn mask_bytes(row: u8) -> u8
    requires { IsRow row }
    ensures value { result ≡ mask_size_of row }
    ensures high { result ≤ 4 }
{
    match shape_of(row) {
        Some(shape) => (shape.count() / 8) as u8,
        None => 0,
    }
}
