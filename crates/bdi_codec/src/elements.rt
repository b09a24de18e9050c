ghost use Rattle.std.specs.Prelude.{◌≡◌, ◌<◌, ◌≤◌, ◌/◌, ◌^◌, All};
ghost use Rattle.arrayvec.specs.ArrayVec.{array_vec_len};
ghost use Rattle.bdi_codec.specs.Bytes.{elements};

use crate::bytes::number;
use arrayvec::ArrayVec;

/// The elements of `width` bytes that the line is made of.
pub fn elements(width: usize, line: &[u8; 64]) -> ArrayVec<u64, 32>
    requires low { 2 ≤ width }
    requires high { width ≤ 8 }
    ensures value { result.items ≡ elements width (64 / width) line.now }
    ensures below { All (λ n. n < 256 ^ width) result.items }
    ensures len { array_vec_len result ≡ 64 / width }
{
    let mut out = ArrayVec::new();
    let mut rest: &[u8] = line;
    for _ in 0..64 / width {
        let (first, others) = rest.split_at(width);
        out.push(number(first));
        rest = others;
    }
    out
}
