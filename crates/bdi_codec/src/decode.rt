ghost use Rattle.std.specs.Prelude.{◌≡◌, ◌≤◌, ◌+◌, ◌*◌, ◌/◌, ◌++◌, Some, length, replicate};
ghost use Rattle.std.specs.List.{flat_map, concat};
ghost use Rattle.arrayvec.specs.ArrayVec.{array_vec_len};
ghost use Rattle.bdi_codec.specs.Bytes.{bytes_of, elements};
ghost use Rattle.bdi_codec.specs.Deltas.{restored_all, deltas_meaning};
ghost use Rattle.bdi_codec.specs.Rows.{meaning};

use crate::bytes::{number, push_bytes, push_number};
use crate::row::{PLAIN, REPEATED, ZEROS};
use crate::shape::{Shape, shape_of};
use arrayvec::ArrayVec;

fn restored_bytes(shape: Shape, base: u64, mask: u32, deltas: &[u8]) -> ArrayVec<u8, 64>
    requires base_in { base ≤ shape.top }
    requires deltas_in { length deltas.now ≡ shape.delta * (64 / shape.width) }
    ensures items { result.items ≡ flat_map (bytes_of shape.width)
        (restored_all (shape.top + 1) shape.half base mask
        (elements shape.delta (64 / shape.width) deltas.now)) }
    ensures len { array_vec_len result ≡ 64 }
{
    let mut out = ArrayVec::new();
    let mut mask = mask;
    let mut rest = deltas;
    for _ in 0..shape.count() {
        let (delta, others) = rest.split_at(shape.delta);
        let element = shape.restored(base, mask % 2 == 1, number(delta));
        push_number(&mut out, shape.width, element);
        mask /= 2;
        rest = others;
    }
    out
}

#[tactic(auto, unfolding(crate::specs::Deltas::deltas_meaning))]
fn decode_deltas(shape: Shape, mask: u32, payload: &[u8]) -> Option<[u8; 64]>
    ensures { result ≡ deltas_meaning shape.width shape.delta mask payload.now }
{
    let count = shape.count();
    if payload.len() != shape.width + shape.delta * count || u64::from(mask) >= 1 << count {
        return None;
    }
    let (base, deltas) = payload.split_at(shape.width);
    restored_bytes(shape, number(base), mask, deltas)
        .into_inner()
        .ok()
}

fn push_copies(out: &mut ArrayVec<u8, 64>, count: usize, bytes: &[u8])
    requires { array_vec_len out.old + length bytes.now * count ≤ 64 }
    ensures items { out.new.items ≡ out.old.items ++ concat (replicate count bytes.now) }
    ensures len { array_vec_len out.new ≡ array_vec_len out.old + length bytes.now * count }
{
    for _ in 0..count {
        push_bytes(out, bytes);
    }
}

fn decode_repeated(payload: &[u8]) -> Option<[u8; 64]>
    requires { length payload.now ≡ 8 }
    ensures { result ≡ Some (concat (replicate 8 payload.now)) }
{
    let mut out = ArrayVec::new();
    push_copies(&mut out, 8, payload);
    out.into_inner().ok()
}

fn decode_plain(payload: &[u8]) -> Option<[u8; 64]>
    requires { length payload.now ≡ 64 }
    ensures { result ≡ Some payload.now }
{
    let mut out = ArrayVec::new();
    push_bytes(&mut out, payload);
    out.into_inner().ok()
}

/// The line that a row, a mask and a payload say. None exactly where they say none: the row is not 0 to 7
/// or 15, the payload has not the row's size, the payload of row 0 is not 0, or the mask has a bit at or
/// above the number of the row's elements, which is 0 for the rows without deltas.
#[tactic(auto, unfolding(crate::specs::Rows::meaning))]
pub fn bdi_decode(row: u8, mask: u32, payload: &[u8]) -> Option<[u8; 64]>
    ensures { result ≡ meaning row mask payload.now }
{
    if let Some(shape) = shape_of(row) {
        return decode_deltas(shape, mask, payload);
    }
    if mask != 0 {
        return None;
    }
    match row {
        ZEROS if payload.len() == 1 && payload[0] == 0 => Some([0; 64]),
        REPEATED if payload.len() == 8 => decode_repeated(payload),
        PLAIN if payload.len() == 64 => decode_plain(payload),
        _ => None,
    }
}
