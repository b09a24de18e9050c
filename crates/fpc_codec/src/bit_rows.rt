// Rows of bits that are written to bytes and read from them, least significant bits first.

ghost use Rattle.std.specs.Prelude.{◌≡◌, ℕ, ◌<◌, ◌≤◌, ◌+◌, ◌*◌, ◌/◌, ◌^◌, ◌++◌, [], IfSome, IfNone, length};
ghost use Rattle.arrayvec.specs.ArrayVec.{array_vec_len};
ghost use Rattle.fpc_codec.specs.Bits.{bytes_of, joined, filled, row_left};

use arrayvec::ArrayVec;

/// Whole bytes, and after them fewer than eight bits that fill no byte yet.
#[derive(Debug, Drop)]
pub struct BitWriter {
    bytes: ArrayVec<u8, 64>,
    pending: u64,
    count: u32,
    ghost few: { count < 8 },
    ghost in_count: { pending < 2 ^ count },
}

impl BitWriter {
    pub fn new() -> Self
        ensures bytes { result.bytes.items ≡ [] }
        ensures count { result.count ≡ 0 }
        ensures pending { result.pending ≡ 0 }
    {
        BitWriter {
            bytes: ArrayVec::new(),
            pending: 0,
            count: 0,
        }
    }

    /// Puts the lowest `width` bits of `number` behind those that are there.
    pub fn put(&mut self, number: u64, width: u32)
        requires width_in { width ≤ 32 }
        requires number_in { number < 2 ^ width }
        requires room { 8 * array_vec_len self.old.bytes + self.old.count + width ≤ 512 }
        ensures bits { 8 * array_vec_len self.new.bytes + self.new.count
            ≡ 8 * array_vec_len self.old.bytes + self.old.count + width }
        ensures written { (total behind : ℕ) → array_vec_len self.new.bytes ≤ total
            → filled self.new.bytes.items self.new.count self.new.pending total behind
            ≡ filled self.old.bytes.items self.old.count self.old.pending total
            (joined width number behind) }
    {
        let mut pending = self.pending + (number << self.count);
        let mut count = self.count + width;
        while count >= 8 {
            self.bytes.push((pending % 256) as u8);
            pending /= 256;
            count -= 8;
        }
        self.pending = pending;
        self.count = count;
    }

    /// The bytes, with zeros in the bits that are left of the last one.
    pub fn into_bytes(self) -> ArrayVec<u8, 64>
        requires { 8 * array_vec_len self.bytes + self.count ≤ 512 }
        ensures { result.items ≡ self.bytes.items ++ bytes_of ((self.count + 7) / 8) self.pending }
    {
        let BitWriter {
            mut bytes,
            pending,
            count,
        } = self;
        if count > 0 {
            bytes.push(pending as u8);
        }
        bytes
    }
}

/// Bytes that are not begun, and the bits that are left of the one before them.
#[derive(Debug, Clone, Copy)]
pub struct BitReader<'a> {
    rest: &'a [u8],
    pending: u64,
    count: u32,
    ghost few: { count < 8 },
    ghost in_count: { pending < 2 ^ count },
}

impl<'a> BitReader<'a> {
    pub fn new(bytes: &'a [u8]) -> Self
        ensures rest { result.rest.now ≡ bytes.now }
        ensures count { result.count ≡ 0 }
        ensures pending { result.pending ≡ 0 }
    {
        BitReader {
            rest: bytes,
            pending: 0,
            count: 0,
        }
    }

    /// The next `width` bits, or `None` where there are fewer.
    pub fn take(&mut self, width: u32) -> Option<u64>
        requires { width ≤ 32 }
        ensures none { IfNone result (self.old.count + 8 * length self.old.rest.now < width) }
        ensures below { IfSome result (λ n. n < 2 ^ width) }
        ensures value { IfSome result (λ n. row_left self.old.count self.old.pending self.old.rest.now
            ≡ joined width n (row_left self.new.count self.new.pending self.new.rest.now)) }
        ensures bits { IfSome result (λ n. self.new.count + 8 * length self.new.rest.now + width
            ≡ self.old.count + 8 * length self.old.rest.now) }
    {
        let mut pending = self.pending;
        let mut count = self.count;
        let mut rest = self.rest;
        while count < width {
            let (first, others) = rest.split_first()?;
            pending += u64::from(*first) << count;
            count += 8;
            rest = others;
        }
        self.rest = rest;
        self.count = count - width;
        self.pending = pending >> width;
        Some(pending % (1 << width))
    }
}
