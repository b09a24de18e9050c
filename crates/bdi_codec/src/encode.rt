ghost use Rattle.std.specs.Prelude.{◌≡◌, ◌<◌, ◌≤◌, ◌+◌, ◌*◌, ◌^◌, ◌++◌, Some, All, length};
ghost use Rattle.std.specs.List.{flat_map};
ghost use Rattle.arrayvec.specs.ArrayVec.{array_vec_len};
ghost use Rattle.bdi_codec.specs.Bytes.{bytes_of};
ghost use Rattle.bdi_codec.specs.Deltas.{delta_of, mask_of, deltas_mask, deltas_payload};
ghost use Rattle.bdi_codec.specs.Rows.{IsRow, least_row, size_of, mask_size_of, mask_in, payload_in, meaning};

use crate::bytes::{push_bytes, push_number};
use crate::elements::elements;
use crate::row::{REPEATED, ZEROS, base, bdi_row};
use crate::shape::{Shape, shape_of};
use arrayvec::ArrayVec;

/// A line in a row.
#[derive(Debug, Drop)]
pub struct Coded {
    /// The row's number, 0 to 7 or 15.
    pub row: u8,
    /// Bit i is 1 where element i is kept as its difference from the base.
    pub mask: u32,
    /// The bytes that are kept, as many as the row's size.
    pub payload: ArrayVec<u8, 64>,
}

fn mask(shape: Shape, elements: &[u64]) -> u32
    requires { length elements.now ≤ 32 }
    ensures value { result ≡ mask_of (shape.top + 1) shape.half elements.now }
    ensures below { result < 2 ^ length elements.now }
{
    let mut mask = 0;
    for place in (0..elements.len()).rev() {
        let bit = u32::from(!shape.is_small(elements[place]));
        mask = bit + 2 * mask;
    }
    mask
}

fn push_deltas(shape: Shape, base: u64, elements: &[u64], out: &mut ArrayVec<u8, 64>)
    requires base_in { base ≤ shape.top }
    requires elements_in { All (λ n. n ≤ shape.top) elements.now }
    requires room { array_vec_len out.old + shape.delta * length elements.now ≤ 64 }
    ensures { out.new.items ≡ out.old.items ++ flat_map
        (λ n. bytes_of shape.delta (delta_of (shape.top + 1) shape.half base n)) elements.now }
{
    for n in elements {
        push_number(out, shape.delta, shape.delta_of(base, *n));
    }
}

#[tactic(auto, unfolding(crate::specs::Deltas::deltas_mask, crate::specs::Deltas::deltas_payload))]
fn encode_deltas(shape: Shape, line: &[u8; 64]) -> Coded
    ensures row { result.row ≡ shape.row }
    ensures mask { result.mask ≡ deltas_mask shape.width shape.delta line.now }
    ensures payload { result.payload.items ≡ deltas_payload shape.width shape.delta line.now }
{
    let elements = elements(shape.width, line);
    let base = base(shape, elements.as_slice());
    let mut payload = ArrayVec::new();
    push_number(&mut payload, shape.width, base);
    push_deltas(shape, base, elements.as_slice(), &mut payload);
    Coded {
        row: shape.row,
        mask: mask(shape, elements.as_slice()),
        payload,
    }
}

fn encode_plain(row: u8, bytes: &[u8]) -> Coded
    requires { length bytes.now ≤ 64 }
    ensures row { result.row ≡ row }
    ensures mask { result.mask ≡ 0 }
    ensures payload { result.payload.items ≡ bytes.now }
{
    let mut payload = ArrayVec::new();
    push_bytes(&mut payload, bytes);
    Coded {
        row,
        mask: 0,
        payload,
    }
}

#[tactic(auto, unfolding(crate::specs::Rows::mask_in, crate::specs::Rows::payload_in))]
fn encode_in(row: u8, line: &[u8; 64]) -> Coded
    requires { IsRow row }
    ensures row { result.row ≡ row }
    ensures mask { result.mask ≡ mask_in row line.now }
    ensures payload { result.payload.items ≡ payload_in row line.now }
{
    if let Some(shape) = shape_of(row) {
        return encode_deltas(shape, line);
    }
    match row {
        ZEROS => encode_plain(row, &[0]),
        REPEATED => encode_plain(row, &line[..8]),
        _ => encode_plain(row, line),
    }
}

/// The line in the row of least size that applies. Decoded again, it is the line.
pub fn bdi_encode(line: &[u8; 64]) -> Coded
    ensures row { result.row ≡ least_row line.now }
    ensures mask { result.mask ≡ mask_in result.row line.now }
    ensures payload { result.payload.items ≡ payload_in result.row line.now }

    // What the encoding says is the line, and it has the room of its row.
    ensures meaning { meaning result.row result.mask result.payload.items ≡ Some line.now }
    ensures known { IsRow result.row }
    ensures size { array_vec_len result.payload ≡ size_of result.row }
    ensures mask_size { result.mask < 256 ^ mask_size_of result.row }
{
    encode_in(bdi_row(line), line)
}
