// The fields of a file: little-endian numbers at a byte's place.
ghost use Rattle.std.specs.Prelude.{◌≡◌, ◌+◌, ◌≤◌, length};
ghost use Rattle.elf_image.specs.Fields.{half, word};

use byteorder::{ByteOrder, LittleEndian};

/// The 16 bits at a place.
#[tactic(auto, unfolding(crate::specs::Fields::half))]
pub fn half_at(file: &[u8], at: usize) -> u16
    requires { at + 2 ≤ length file.now }
    ensures { result ≡ half file.now at }
{
    LittleEndian::read_u16(&file[at..])
}

/// The 32 bits at a place.
#[tactic(auto, unfolding(crate::specs::Fields::word))]
pub fn word_at(file: &[u8], at: usize) -> u32
    requires { at + 4 ≤ length file.now }
    ensures { result ≡ word file.now at }
{
    LittleEndian::read_u32(&file[at..])
}
