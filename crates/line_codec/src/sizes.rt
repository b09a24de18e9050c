ghost use Rattle.std.specs.Prelude.{◌≡◌, ◌≤◌};
ghost use Rattle.line_codec.specs.Slots.{size_under, stored};

use bdi_codec::{bdi_row, mask_bytes, row_size};
use fpc_codec::fpc_size;
use hier_types::Codec;

/// The bytes of the line's encoding, 1 to 64, and 64 exactly where the codec does not shorten the line. They
/// count neither the header of a slot nor a mask.
///
/// Under base-delta-immediate the line's bytes are read at most once for each width of an element, a row is
/// left at the first element that breaks it, and a line of zeros and a repeated element are found first. Under
/// frequent patterns they are at least 2, and it is one pass over the line's sixteen words. No payload is made.
pub fn size(codec: Codec, line: &[u8; 64]) -> u8
    ensures value { result ≡ size_under codec line.now }
    ensures low { 1 ≤ result }
    ensures high { result ≤ 64 }
{
    match codec {
        Codec::Bdi => row_size(bdi_row(line)),
        Codec::Fpc => fpc_size(line),
    }
}

/// The bytes that the line takes in a slot: the header, its size and, under base-delta-immediate, the mask. None
/// exactly where the size is 64. It costs what [`size`] does.
pub fn stored_size(codec: Codec, line: &[u8; 64]) -> Option<u8>
    ensures { result ≡ stored codec line.now }
{
    let (size, mask_size) = match codec {
        Codec::Bdi => {
            let row = bdi_row(line);
            (row_size(row), mask_bytes(row))
        }
        Codec::Fpc => (fpc_size(line), 0),
    };
    if size == 64 {
        return None;
    }
    Some(1 + size + mask_size)
}
