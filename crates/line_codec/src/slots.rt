ghost use Rattle.std.specs.Prelude.{◌≡◌, ◌≤◌, ℕ, ◌-◌, ◌++◌, List, Some, None, MatchOption, IfSome, IsTrue, IsFalse, length, replicate};
ghost use Rattle.arrayvec.specs.ArrayVec.{array_vec_len};
ghost use Rattle.fpc_codec.specs.Line.{Means, size_of};
ghost use Rattle.fpc_codec.specs.Reading.{line_said};
ghost use Rattle.line_codec.specs.Slots.{stored, fits, encoding, padded, bdi_meaning, Says, line_in, used_in, SlotsSayLines};

use arrayvec::ArrayVec;
use bdi_codec::{bdi_decode, bdi_encode, mask_bytes, mask_from_bytes, mask_to_bytes, row_size};
use fpc_codec::{fpc_decode, fpc_encode, fpc_size};
use hier_types::Codec;

/// The rows of base-delta-immediate that shorten a line go up to here, and each is its slots' header.
pub const LAST_ROW: u8 = 7;

/// The header of frequent patterns.
const PATTERNS_HEADER: u8 = 8;

fn bdi_encoded(line: &[u8; 64]) -> Option<ArrayVec<u8, 64>>
    ensures bytes { IfSome result (λ bytes. bytes.items ≡ encoding Codec.Bdi line.now) }
    ensures len { MatchOption result (stored Codec.Bdi line.now ≡ None)
        (λ bytes. stored Codec.Bdi line.now ≡ Some (array_vec_len bytes)) }
{
    let coded = bdi_encode(line);
    if coded.row > LAST_ROW {
        return None;
    }
    let mask_size = usize::from(mask_bytes(coded.row));
    let payload = coded.payload.as_slice();
    let mask = mask_to_bytes(coded.mask);
    let mut bytes = ArrayVec::new();
    bytes.push(coded.row);
    bytes.try_extend_from_slice(payload).unwrap();
    bytes.try_extend_from_slice(&mask[..mask_size]).unwrap();
    Some(bytes)
}

fn fpc_encoded(line: &[u8; 64]) -> Option<ArrayVec<u8, 64>>
    ensures bytes { IfSome result (λ bytes. bytes.items ≡ encoding Codec.Fpc line.now) }
    ensures len { MatchOption result (stored Codec.Fpc line.now ≡ None)
        (λ bytes. stored Codec.Fpc line.now ≡ Some (array_vec_len bytes)) }
{
    let Some(codes) = fpc_encode(line) else {
        return None;
    };
    let mut bytes = ArrayVec::new();
    bytes.push(PATTERNS_HEADER);
    bytes.try_extend_from_slice(codes.as_slice()).unwrap();
    Some(bytes)
}

// The bytes of the line in a slot, where it has a stored size.
fn encoded(codec: Codec, line: &[u8; 64]) -> Option<ArrayVec<u8, 64>>
    ensures bytes { IfSome result (λ bytes. bytes.items ≡ encoding codec line.now) }
    ensures len { MatchOption result (stored codec line.now ≡ None)
        (λ bytes. stored codec line.now ≡ Some (array_vec_len bytes)) }
{
    match codec {
        Codec::Bdi => bdi_encoded(line),
        Codec::Fpc => fpc_encoded(line),
    }
}

// The bytes at the front of the slot, and zeros behind them.
fn put(slot: &mut [u8], bytes: &[u8])
    requires { length bytes.now ≤ length slot.old }
    ensures { slot.new ≡ padded (length slot.old) bytes.now }
{
    let len = bytes.len();
    slot[..len].copy_from_slice(bytes);
    slot[len..].fill(0);
}

/// Puts the line into the slot: its header, payload and, under base-delta-immediate, mask, and zeros up to the
/// slot's end. False, with the slot as it was, exactly where the line has no stored size or more bytes than the
/// slot. Makes the payload once, on the stack, also where it does not fit.
pub fn to_slot(codec: Codec, line: &[u8; 64], slot: &mut [u8]) -> bool
    ensures fits { result ≡ fits codec (length slot.old) line.now }
    ensures written { IsTrue result
        → slot.new ≡ padded (length slot.old) (encoding codec line.now) }
    ensures reads_back { IsTrue result → Says slot.new line.now }
    ensures unchanged { IsFalse result → slot.new ≡ slot.old }
{
    let Some(bytes) = encoded(codec, line) else {
        return false;
    };
    if bytes.len() > slot.len() {
        return false;
    }
    put(slot, bytes.as_slice());
    true
}

#[tactic(auto, unfolding(crate::specs::Slots::bdi_meaning))]
fn bdi_from_slot(row: u8, bytes: &[u8]) -> Option<[u8; 64]>
    requires { row ≤ LAST_ROW }
    ensures { result ≡ bdi_meaning row bytes.now }
{
    let size = usize::from(row_size(row));
    let mask_size = usize::from(mask_bytes(row));
    if bytes.len() < size + mask_size {
        return None;
    }
    let (payload, rest) = bytes.split_at(size);
    bdi_decode(row, mask_from_bytes(&rest[..mask_size]), payload)
}

/// The line that the slot says, whichever codec put it there; what stands behind the encoding is not read.
/// None exactly where it says none: the header names no codec, the slot is too short for what the header asks,
/// or what stands behind the header says no line.
#[tactic(auto, unfolding(crate::specs::Slots::Says))]
pub fn from_slot(slot: &[u8]) -> Option<[u8; 64]>
    ensures meaning { MatchOption result ((line : List ℕ) → ¬ Says slot.now line)
        (λ line. Says slot.now line) }
    ensures only { (line : List ℕ) → Says slot.now line → result ≡ Some line }
    ensures value { IfSome result (λ line. line ≡ line_in slot.now) }
{
    match slot {
        [row @ 0..=LAST_ROW, bytes @ ..] => bdi_from_slot(*row, bytes),
        [PATTERNS_HEADER, bytes @ ..] => fpc_decode(bytes),
        _ => None,
    }
}

// The bytes of the least codes of the line that the bytes say.
fn patterns_size(bytes: &[u8]) -> u8
    requires { (line : List ℕ) × Means bytes.now line }
    ensures size { result ≡ size_of (line_said bytes.now) }
    ensures high { result ≤ 64 }
{
    fpc_size(&fpc_decode(bytes).unwrap())
}

/// The bytes of the slot that say its line: the header, the payload and, under base-delta-immediate, the mask. It wants
/// a slot that says a line, and takes the codes of frequent patterns to be the line's least, as [`to_slot`] makes them.
#[tactic(auto, unfolding(crate::specs::Slots::Says, crate::specs::Slots::used_in))]
pub fn used_size(slot: &[u8]) -> u8
    requires { (line : List ℕ) × Says slot.now line }
    ensures { result ≡ used_in slot.now }
{
    match slot {
        [row @ 0..=LAST_ROW, ..] => 1 + row_size(*row) + mask_bytes(*row),
        [PATTERNS_HEADER, bytes @ ..] => 1 + patterns_size(bytes),
        _ => unreachable!(),
    }
}

/// A slot that begins with the encoding of a line says that line, in as many bytes as the line takes in a slot.
pub fn slots_say_lines()
    ensures { SlotsSayLines }
{}
