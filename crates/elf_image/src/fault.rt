// Why a file is refused, and the answer of one test.
ghost use Rattle.elf_image.specs.Rows.{Answers, whole, at_header};

use crate::headers::Header;

/// Why a file is no image for a span.
#[derive(Clone, Copy, Debug, PartialEq, Eq)]
pub struct ImageFault {
    pub kind: ImageKind,
    /// The number of the program header that the kind is about, from 0.
    pub header: Option<u16>,
}

/// What is wrong with a file, in the order in which it is looked for. Names of fields are those of the System V gABI.
#[derive(Clone, Copy, Debug, PartialEq, Eq)]
pub enum ImageKind {
    /// The file has fewer than 52 bytes.
    Short,
    /// It does not begin with 7F 45 4C 46.
    Magic,
    /// It is not of 32 bits.
    Class,
    /// It is not little-endian.
    Order,
    /// The identification's version or `e_version` is not 1.
    Version,
    /// `e_type` is not 2, an executable file.
    Kind,
    /// `e_machine` is not 243, RISC-V.
    Machine,
    /// Bit 0 of `e_flags` says that there are compressed instructions.
    Compressed,
    /// There are program headers, and they are not of 32 bytes or pass the file's end.
    HeaderTable,
    /// A header is of type 3, an interpreter's path.
    Interpreter,
    /// No header is a load.
    NoLoad,
    /// More than 64 headers are loads.
    ManyLoads,
    /// A load takes bytes from behind the file's end.
    FileRange,
    /// A load takes more bytes from the file than it has memory.
    SizeOrder,
    /// A load has a byte outside the span.
    AddressRange,
    /// A load has a byte that an earlier load has; the later one is named.
    Overlap,
    /// Memory ran out. It says nothing of the file.
    NoMemory,
}

/// Refuses the file where a row that is about the whole file holds.
pub(crate) fn refuse_if(holds: bool, kind: ImageKind) -> Result<(), ImageFault>
    ensures { Answers (whole kind holds) result }
{
    if holds {
        return Err(ImageFault { kind, header: None });
    }
    Ok(())
}

/// Refuses the file where there is a header that a row is about.
pub(crate) fn refuse_at(found: Option<Header>, kind: ImageKind) -> Result<(), ImageFault>
    ensures { Answers (at_header kind found) result }
{
    match found {
        None => Ok(()),
        Some(header) => Err(ImageFault {
            kind,
            header: Some(header.number),
        }),
    }
}
