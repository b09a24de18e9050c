// The program headers of a file.
ghost use Rattle.std.specs.Prelude.{◌≡◌, ◌==◌, ◌<◌, ◌≤◌, IfOk, find, length};
ghost use Rattle.elf_image.specs.Headers.{HasHeaders, header_count, header_of, headers_of, loads_of};
ghost use Rattle.elf_image.specs.declared.headers.Header.{Header};

use crate::fields::{half_at, word_at};
use std::alloc::{AllocError, Global};

pub const HEADER_BYTES: usize = 32;

/// PT_LOAD of the System V gABI.
const LOAD: u32 = 1;

/// What is read of a program header. Sizes are in bytes.
#[derive(Clone, Copy, Debug)]
pub struct Header {
    /// Which one of the file's it is, from 0.
    pub number: u16,
    /// `p_type`
    pub kind: u32,
    /// `p_offset`, the place in the file of the bytes that it loads
    pub offset: u32,
    /// `p_vaddr`, the address of its memory
    pub start: u32,
    /// `p_filesz`
    pub file_size: u32,
    /// `p_memsz`
    pub memory_size: u32,
}

fn header_at(file: &[u8], number: u16) -> Header
    requires long { 52 ≤ length file.now }
    requires headers { HasHeaders file.now }
    requires there { number < header_count file.now }
    ensures { result ≡ header_of file.now number }
{
    let place = word_at(file, 28) as usize + HEADER_BYTES * number as usize;
    Header {
        number,
        kind: word_at(file, place),
        offset: word_at(file, place + 4),
        start: word_at(file, place + 8),
        file_size: word_at(file, place + 16),
        memory_size: word_at(file, place + 20),
    }
}

/// The first header of a type.
pub fn first_of_kind(file: &[u8], kind: u32) -> Option<Header>
    requires long { 52 ≤ length file.now }
    requires headers { HasHeaders file.now }
    ensures { result ≡ find (λ (header : Header). header.kind == kind) (headers_of file.now) }
{
    for number in 0..half_at(file, 44) {
        let header = header_at(file, number);
        if header.kind == kind {
            return Some(header);
        }
    }
    None
}

/// How many headers are loads.
pub fn count_loads(file: &[u8]) -> usize
    requires long { 52 ≤ length file.now }
    requires headers { HasHeaders file.now }
    ensures { result ≡ length (loads_of file.now) }
{
    let mut count = 0;
    for number in 0..half_at(file, 44) {
        if header_at(file, number).kind == LOAD {
            count += 1;
        }
    }
    count
}

/// The headers that are loads, by number.
pub fn loads_of(alloc: Global, file: &[u8]) -> Result<Vec<Header>, AllocError>
    requires long { 52 ≤ length file.now }
    requires headers { HasHeaders file.now }
    ensures { IfOk result (λ loads. loads.items ≡ loads_of file.now) }
{
    let mut loads = Vec::new(alloc);
    for number in 0..half_at(file, 44) {
        let header = header_at(file, number);
        if header.kind == LOAD {
            loads.push(header)?;
        }
    }
    Ok(loads)
}
