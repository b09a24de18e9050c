// A file that was accepted, and the bytes that it puts into the memory.
ghost use Rattle.std.specs.Prelude.{◌≡◌, ◌+◌, ◌<◌, ◌≤◌, ℕ, length, slice_index};
ghost use Rattle.elf_image.specs.Image.{IsSound, entry, end_of, page_of};
ghost use Rattle.elf_image.specs.Pages.{IsWithin, PutsAt, byte_over};

use crate::fields::word_at;
use crate::headers::Header;
use hier_types::{Geometry, PAGE_BYTES, PageNo};
use std::marker::Model;

/// A program that was accepted for a span.
#[derive(Drop)]
pub struct Image {
    file: Vec<u8>,
    geometry: Geometry,
    loads: Vec<Header>,
}

impl Model for Image {
    ghost use Rattle.elf_image.specs.Image.{Loaded, IsSound};

    ghost Value = { Loaded };

    ghost view = { λ a. record { span = a.geometry; file = a.file.items } };

    ghost invariant = { λ a. IsSound a.geometry a.file.items a.loads.items };
}

impl Image {
    /// The image of a file that was accepted, with its loads.
    pub(crate) fn new(file: Vec<u8>, geometry: Geometry, loads: Vec<Header>) -> Self
        requires { IsSound geometry file.items loads.items }
        ensures { result ≡ record { span = geometry; file = file.items } }
    {
        Image {
            file,
            geometry,
            loads,
        }
    }

    /// The address of the first instruction. It may lie anywhere.
    pub fn entry(&self) -> u32
        ensures { result ≡ entry self.now.file }
    {
        word_at(&self.file, 24)
    }

    /// The address behind the last byte of all loads, or the first one of the span where no load has memory.
    pub fn end(&self) -> u32
        ensures { result ≡ end_of self.now.span self.now.file }
    {
        let mut end = self.geometry.first();
        for load in &self.loads {
            if load.memory_size > 0 {
                end = end.max(load.start + load.memory_size);
            }
        }
        end
    }

    /// The bytes of a page at the start: the file's where a load covers the address, and zeros elsewhere.
    pub fn page(&self, number: PageNo, into: &mut [u8; 4096])
        requires { number.0 < self.now.span.pages }
        ensures { into.new ≡ page_of self.now.span self.now.file number.0 }
    {
        let first = self.geometry.first() + number.0 * PAGE_BYTES;
        *into = [0; 4096];
        for load in &self.loads {
            put_load(&self.file, load, first, into);
        }
    }
}

/// Puts what a load has of the page at the address `first` over the page's bytes.
fn put_load(file: &[u8], load: &Header, first: u32, into: &mut [u8; 4096])
    requires { IsWithin (length file.now) load.now }
    ensures len { length into.new ≡ 4096 }
    ensures each { (k : ℕ) → k < 4096 → slice_index into.new k ≡ byte_over file.now load.now (slice_index into.old k) (first + k) }
{
    let start = load.start as usize;
    let first = first as usize;
    let from = start.max(first);
    let to = (start + load.file_size as usize).min(first + PAGE_BYTES as usize);
    if from < to {
        let offset = load.offset as usize + (from - start);
        put(into, from - first, &file[offset..offset + (to - from)]);
    }
}

/// Puts bytes at a place of the page.
fn put(into: &mut [u8; 4096], at: usize, part: &[u8])
    requires { at + length part.now ≤ 4096 }
    ensures { PutsAt at part.now into.old into.new }
{
    into[at..at + part.len()].copy_from_slice(part);
}
