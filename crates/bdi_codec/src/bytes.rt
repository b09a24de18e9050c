//! Numbers as bytes, the lowest byte first.
ghost use Rattle.std.specs.Prelude.{◌≡◌, ◌<◌, ◌≤◌, ◌+◌, ◌^◌, ◌++◌, length};
ghost use Rattle.arrayvec.specs.ArrayVec.{array_vec_len};
ghost use Rattle.bdi_codec.specs.Bytes.{number_of, bytes_of};

use arrayvec::ArrayVec;

/// The number that at most eight bytes say, the lowest byte first.
pub fn number(bytes: &[u8]) -> u64
    requires { length bytes.now ≤ 8 }
    ensures value { result ≡ number_of bytes.now }
    ensures below { result < 256 ^ length bytes.now }
{
    let mut n = 0;
    for place in (0..bytes.len()).rev() {
        n = 256 * n + u64::from(bytes[place]);
    }
    n
}

/// Appends the lowest `count` bytes of `n`, the lowest first.
pub fn push_number(out: &mut ArrayVec<u8, 64>, count: usize, n: u64)
    requires { array_vec_len out.old + count ≤ 64 }
    ensures items { out.new.items ≡ out.old.items ++ bytes_of count n }
    ensures len { array_vec_len out.new ≡ array_vec_len out.old + count }
{
    let mut rest = n;
    for _ in 0..count {
        out.push((rest % 256) as u8);
        rest /= 256;
    }
}

/// Appends the bytes.
pub fn push_bytes(out: &mut ArrayVec<u8, 64>, bytes: &[u8])
    requires { array_vec_len out.old + length bytes.now ≤ 64 }
    ensures items { out.new.items ≡ out.old.items ++ bytes.now }
    ensures len { array_vec_len out.new ≡ array_vec_len out.old + length bytes.now }
{
    out.try_extend_from_slice(bytes).unwrap();
}
