// From a file's bytes to its image.
ghost use Rattle.std.specs.Prelude.{◌≡◌, ◌≢◌, ◌≤◌, Some, None, IfOk, IfErr, length};
ghost use Rattle.elf_image.specs.Accepted.{fault_of, header_rows};
ghost use Rattle.elf_image.specs.Headers.{HasHeaders};
ghost use Rattle.elf_image.specs.Image.{HoldsLoads};
ghost use Rattle.elf_image.specs.Rows.{Answers, first_row};
ghost use Rattle.elf_image.specs.declared.fault.ImageKind.TheVariants.{NoMemory};

use crate::fault::{ImageFault, ImageKind, refuse_at, refuse_if};
use crate::file_header::check_file_header;
use crate::headers::{count_loads, first_of_kind, loads_of};
use crate::image::Image;
use crate::loads::check_loads;
use hier_types::Geometry;
use std::alloc::Global;

/// PT_INTERP of the System V gABI.
const INTERPRETER: u32 = 3;

const MOST_LOADS: usize = 64;

const NO_MEMORY: ImageFault = ImageFault {
    kind: ImageKind::NoMemory,
    header: None,
};

/// Reads an executable ELF file of 32 bits for RISC-V whose loads lie in the span. Headers of other types, section
/// headers, alignment, segment flags and all bits of `e_flags` but the lowest, that of compressed instructions, are
/// ignored (System V gABI, "Object files"). Memory may run out whether or not the file is accepted.
pub fn read_image(alloc: Global, bytes: Vec<u8>, geometry: Geometry) -> Result<Image, ImageFault>
    ensures ok { IfOk result (λ image. (fault_of geometry bytes.items ≡ None) × (image ≡ record { span = geometry; file = bytes.items })) }
    ensures loads { IfOk result (λ _. HoldsLoads bytes.items) }
    ensures fault { IfErr result (λ fault. fault.kind ≢ NoMemory → fault_of geometry bytes.items ≡ Some fault) }
    ensures no_memory { IfErr result (λ fault. fault.kind ≡ NoMemory → fault.header ≡ None) }
{
    check_file_header(&bytes)?;
    check_headers(&bytes)?;
    let Ok(loads) = loads_of(alloc, &bytes) else {
        return Err(NO_MEMORY);
    };
    check_loads(&loads, bytes.len(), &geometry)?;
    Ok(Image::new(bytes, geometry, loads))
}

/// Ends with the first fault of the list of headers, if there is one.
fn check_headers(file: &[u8]) -> Result<(), ImageFault>
    requires long { 52 ≤ length file.now }
    requires headers { HasHeaders file.now }
    ensures { Answers (first_row (header_rows file.now)) result }
{
    refuse_at(first_of_kind(file, INTERPRETER), ImageKind::Interpreter)?;
    let loads = count_loads(file);
    refuse_if(loads == 0, ImageKind::NoLoad)?;
    refuse_if(loads > MOST_LOADS, ImageKind::ManyLoads)
}
