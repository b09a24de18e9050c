// One byte for each address of the guest's span.
ghost use Rattle.std.specs.Prelude.{◌≡◌, ◌+◌, ◌*◌, ◌<◌, ◌≤◌, ◌++◌, None, IfOk, length, replicate, take};
ghost use Rattle.elf_image.specs.Image.{memory_of};
ghost use Rattle.rv_flat.specs.Flat.{FlatPoke, FlatTouch};

use elf_image::Image;
use hier_types::{Geometry, LineNo, NoMemory, NoSpace, PAGE_BYTES, PageNo, Port};
use std::alloc::Global;
use std::marker::Model;

/// The guest's memory as one list of bytes.
#[derive(Drop)]
pub struct FlatMemory {
    bytes: Vec<u8>,
    geometry: Geometry,
    held: Option<u32>,
}

impl Model for FlatMemory {
    ghost use Rattle.rv_flat.specs.Flat.{Bytes, IsWhole};

    ghost Value = { Bytes };

    ghost view = { λ m. record { span = m.geometry; bytes = m.bytes.items; held = m.held } };

    ghost invariant = { λ m. IsWhole m.geometry m.bytes.items };
}

impl FlatMemory {
    /// Zeros, a byte for each address, with no line held.
    pub fn new(alloc: Global, geometry: Geometry) -> Result<Self, NoMemory>
        requires few { geometry.pages ≤ 65536 }
        ensures { IfOk result (λ memory. memory ≡ record { span = geometry; bytes = replicate (4096 * geometry.pages) 0; held = None }) }
    {
        let size = (geometry.pages * PAGE_BYTES) as usize;
        Ok(FlatMemory {
            bytes: Vec::from_elem(alloc, 0, size)?,
            geometry,
            held: None,
        })
    }

    /// Puts the image in: afterwards each byte is the one that a program begins with.
    pub fn load(&mut self, image: &Image)
        requires same { image.now.span ≡ self.old.span }
        ensures { self.new ≡ record { span = self.old.span; bytes = memory_of image.now.span image.now.file; held = self.old.held } }
    {
        fill(&mut self.bytes, image, self.geometry.pages);
    }
}

impl Port for FlatMemory {
    ghost span = { λ m. m.span };

    ghost bytes = { λ m. m.bytes };

    ghost held = { λ m. m.held };

    ghost stops = { λ m. 0 };

    ghost crowded = { λ m refusal. ⊥ };

    ghost did_touch = { FlatTouch };

    ghost did_poke = { FlatPoke };

    fn span(&self) -> Geometry {
        self.geometry
    }

    fn touch(&mut self, line: LineNo) -> Result<(), NoSpace> {
        self.held = Some(line.0);
        Ok(())
    }

    fn peek(&self, at: u32) -> u8 {
        self.bytes[(at - self.geometry.first()) as usize]
    }

    fn poke(&mut self, at: u32, byte: u8) {
        self.bytes[(at - self.geometry.first()) as usize] = byte;
    }
}

/// Puts all pages of an image in.
fn fill(bytes: &mut [u8], image: &Image, pages: u32)
    requires few { pages ≤ 65536 }
    requires same { image.now.span.pages ≡ pages }
    requires sized { length bytes.old ≡ 4096 * pages }
    ensures { bytes.new ≡ memory_of image.now.span image.now.file }
{
    let mut page = [0; 4096];
    for number in 0..pages {
        image.page(PageNo(number), &mut page);
        put_page(bytes, number, &page);
    }
}

/// Puts a page's bytes to their place.
fn put_page(bytes: &mut [u8], number: u32, page: &[u8; 4096])
    requires few { number < 65536 }
    requires inside { 4096 * (number + 1) ≤ length bytes.old }
    ensures len { length bytes.new ≡ length bytes.old }
    ensures front { take (4096 * (number + 1)) bytes.new ≡ take (4096 * number) bytes.old ++ page.now }
{
    let at = (number * PAGE_BYTES) as usize;
    bytes[at..at + 4096].copy_from_slice(page);
}
