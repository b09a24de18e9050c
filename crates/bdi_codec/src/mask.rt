// A row's mask as bytes, the lowest first.
ghost use Rattle.std.specs.Prelude.{◌≡◌, ◌≤◌, ℕ, length, take};
ghost use Rattle.bdi_codec.specs.Bytes.{number_of, bytes_of};

use crate::bytes::number;

/// A mask as bytes, the lowest first. The first of them, as many as the row's mask has, stand for it.
pub fn mask_to_bytes(mask: u32) -> [u8; 4]
    ensures { (count : ℕ) → count ≤ 4 → take count result ≡ bytes_of count mask }
{
    mask.to_le_bytes()
}

/// The mask that at most four bytes say, the lowest first.
pub fn mask_from_bytes(bytes: &[u8]) -> u32
    requires { length bytes.now ≤ 4 }
    ensures { result ≡ number_of bytes.now }
{
    number(bytes) as u32
}
