// ELF files of 32 bits for RISC-V with one load, which begins with the first instruction.

ghost use Rattle.std.specs.Prelude.{◌≡◌, ◌≤◌, ◌++◌, ◌^◌, length, IfOk, OnOk};
ghost use Rattle.std.specs.List.{flat_map};
ghost use Rattle.rv_asm.specs.ElfFile.{elf_file, file_header, half, program_header, word};

use hier_types::NoMemory;
use std::alloc::Global;

/// The magic number, 32 bits, little-endian, version 1, and padding.
const IDENTIFICATION: [u8; 16] = [0x7f, 0x45, 0x4c, 0x46, 1, 1, 1, 0, 0, 0, 0, 0, 0, 0, 0, 0];

/// ET_EXEC.
const EXECUTABLE: u16 = 2;

/// EM_RISCV of the RISC-V psABI.
const RISC_V: u16 = 243;

/// EV_CURRENT.
const VERSION: u32 = 1;

/// PT_LOAD.
const LOAD: u32 = 1;

/// PF_R and PF_X.
const READ_AND_EXECUTE: u32 = 5;

/// The address of the first word.
const START: u32 = 0x0001_0000;

const FILE_HEADER_BYTES: u16 = 52;

const PROGRAM_HEADER_BYTES: u16 = 32;

const HEADER_BYTES: u32 = 84;

const WORD_BYTES: u32 = 4;

/// The file that loads the words at the address 00010000 and starts there: an ELF executable of 32 bits for RISC-V
/// (System V gABI, "Object files"), of 84 bytes of headers and then the words, little-endian. `NoMemory` comes where
/// the allocator has none for the file.
#[tactic(auto, unfolding(crate::specs::ElfFile::elf_file))]
pub fn write_elf(alloc: Global, words: &[u32]) -> Result<Vec<u8>, NoMemory>
    requires { length words.now ≤ 2 ^ 20 }
    ensures { IfOk result (λ file. file.items ≡ elf_file words.now) }
{
    let bytes = WORD_BYTES * words.len() as u32;
    let mut file = Vec::with_capacity(alloc, (HEADER_BYTES + bytes) as usize)?;
    put_file_header(&mut file)?;
    put_program_header(&mut file, bytes)?;
    put_words(&mut file, words)?;
    Ok(file)
}

// There are no sections, so their fields are 0.
fn put_file_header(file: &mut Vec<u8>) -> Result<(), NoMemory>
    ensures { OnOk result (file.new.items ≡ file.old.items ++ file_header) }
{
    file.extend_from_slice(&IDENTIFICATION)?;
    put_halves(file, &[EXECUTABLE, RISC_V])?;
    put_words(file, &[VERSION, START, FILE_HEADER_BYTES as u32, 0, 0])?;
    put_halves(file, &[FILE_HEADER_BYTES, PROGRAM_HEADER_BYTES, 1, 0, 0, 0])
}

fn put_program_header(file: &mut Vec<u8>, bytes: u32) -> Result<(), NoMemory>
    ensures { OnOk result (file.new.items ≡ file.old.items ++ program_header bytes) }
{
    put_words(
        file,
        &[
            LOAD,
            HEADER_BYTES,
            START,
            START,
            bytes,
            bytes,
            READ_AND_EXECUTE,
            WORD_BYTES,
        ],
    )
}

fn put_halves(file: &mut Vec<u8>, halves: &[u16]) -> Result<(), NoMemory>
    ensures { OnOk result (file.new.items ≡ file.old.items ++ flat_map half halves.now) }
{
    for half in halves {
        file.extend_from_slice(&half.to_le_bytes())?;
    }
    Ok(())
}

fn put_words(file: &mut Vec<u8>, words: &[u32]) -> Result<(), NoMemory>
    ensures { OnOk result (file.new.items ≡ file.old.items ++ flat_map word words.now) }
{
    for word in words {
        file.extend_from_slice(&word.to_le_bytes())?;
    }
    Ok(())
}
