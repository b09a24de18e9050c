// The tests of the file header.
ghost use Rattle.std.specs.Prelude.{◌≡◌, ◌≤◌, length};
ghost use Rattle.elf_image.specs.Accepted.{file_header_rows, has_bad_table, has_other_version};
ghost use Rattle.elf_image.specs.Rows.{Answers, first_row};

use crate::fault::{ImageFault, ImageKind, refuse_if};
use crate::fields::{half_at, word_at};
use crate::headers::HEADER_BYTES;

/// The bytes 7F 45 4C 46, as a number.
const MAGIC: u32 = 0x464c_457f;

/// EM_RISCV of the RISC-V psABI.
const RISC_V: u16 = 243;

const FILE_HEADER_BYTES: usize = 52;

/// Ends with the first fault of the file header, if there is one.
pub fn check_file_header(file: &[u8]) -> Result<(), ImageFault>
    ensures { Answers (first_row (file_header_rows file.now)) result }
{
    refuse_if(file.len() < FILE_HEADER_BYTES, ImageKind::Short)?;
    refuse_if(word_at(file, 0) != MAGIC, ImageKind::Magic)?;
    refuse_if(file[4] != 1, ImageKind::Class)?;
    refuse_if(file[5] != 1, ImageKind::Order)?;
    refuse_if(has_other_version(file), ImageKind::Version)?;
    refuse_if(half_at(file, 16) != 2, ImageKind::Kind)?;
    refuse_if(half_at(file, 18) != RISC_V, ImageKind::Machine)?;
    refuse_if(word_at(file, 36) % 2 == 1, ImageKind::Compressed)?;
    refuse_if(has_bad_table(file), ImageKind::HeaderTable)
}

/// Whether the identification or the file header is not of version 1.
fn has_other_version(file: &[u8]) -> bool
    requires { 52 ≤ length file.now }
    ensures { result ≡ has_other_version file.now }
{
    file[6] != 1 || word_at(file, 20) != 1
}

/// Whether there are program headers which are of another size or pass the file's end.
fn has_bad_table(file: &[u8]) -> bool
    requires { 52 ≤ length file.now }
    ensures { result ≡ has_bad_table file.now }
{
    let count = half_at(file, 44) as usize;
    let end = word_at(file, 28) as usize + HEADER_BYTES * count;
    count != 0 && (half_at(file, 42) as usize != HEADER_BYTES || file.len() < end)
}
