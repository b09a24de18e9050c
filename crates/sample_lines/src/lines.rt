// The lines.
ghost use Rattle.std.specs.Prelude.{◌≡◌, ◌<◌, ℕ, slice_index_or};
ghost use Rattle.sample_lines.specs.Words.{byte_of};

/// A line of sixteen words of 32 bits. The first one is given, and each is greater than the one before by the step, modulo
/// 2^32. A word has its lowest byte first.
pub fn rising(first: u32, step: u32) -> [u8; 64]
    ensures { (k : ℕ) → k < 64 → slice_index_or result k 0 ≡ byte_of first step k }
{
    let mut line = [0; 64];
    for index in 0..64usize {
        let word = first.wrapping_add(step.wrapping_mul(index as u32 / 4));
        line[index] = word.to_le_bytes()[index % 4];
    }
    line
}

/// A line that neither codec shortens: words that rise from 01234567 hexadecimal by as much.
pub fn plain() -> [u8; 64]
    ensures { (k : ℕ) → k < 64 → slice_index_or result k 0 ≡ byte_of 0x0123_4567 0x0123_4567 k }
{
    rising(0x0123_4567, 0x0123_4567)
}
