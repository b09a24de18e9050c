// The tests of loads.
ghost use Rattle.std.specs.Prelude.{◌≡◌, find};
ghost use Rattle.elf_image.specs.Accepted.{end_address, exceeds_memory, leaves_span, load_rows, overlaps_earlier, passes_file, shares_byte};
ghost use Rattle.elf_image.specs.Rows.{Answers, first_row};

use crate::fault::{ImageFault, ImageKind, refuse_at};
use crate::headers::Header;
use hier_types::Geometry;

/// Ends with the first fault of the loads of a file of so many bytes, if there is one.
pub fn check_loads(loads: &[Header], bytes: usize, geometry: &Geometry) -> Result<(), ImageFault>
    ensures { Answers (first_row (load_rows geometry.now bytes loads.now)) result }
{
    refuse_at(first_past_file(loads, bytes), ImageKind::FileRange)?;
    refuse_at(first_above_memory(loads), ImageKind::SizeOrder)?;
    refuse_at(first_outside(loads, geometry), ImageKind::AddressRange)?;
    refuse_at(first_overlap(loads), ImageKind::Overlap)
}

fn first_past_file(loads: &[Header], bytes: usize) -> Option<Header>
    ensures { result ≡ find (passes_file bytes) loads.now }
{
    loads.iter().copied().find(|load| load.passes_file(bytes))
}

fn first_above_memory(loads: &[Header]) -> Option<Header>
    ensures { result ≡ find exceeds_memory loads.now }
{
    loads.iter().copied().find(|load| load.exceeds_memory())
}

fn first_outside(loads: &[Header], geometry: &Geometry) -> Option<Header>
    ensures { result ≡ find (leaves_span geometry.now) loads.now }
{
    loads
        .iter()
        .copied()
        .find(|load| load.leaves_span(geometry))
}

fn first_overlap(loads: &[Header]) -> Option<Header>
    ensures { result ≡ find (overlaps_earlier loads.now) loads.now }
{
    loads
        .iter()
        .copied()
        .find(|load| load.overlaps_earlier(loads))
}

impl Header {
    /// The address behind the last byte of its memory.
    fn end_address(&self) -> u64
        ensures { result ≡ end_address self.now }
    {
        u64::from(self.start) + u64::from(self.memory_size)
    }

    /// Whether it takes bytes from behind the end of a file of so many bytes.
    fn passes_file(&self, bytes: usize) -> bool
        ensures { result ≡ passes_file bytes self.now }
    {
        self.file_size > 0 && u64::from(self.offset) + u64::from(self.file_size) > bytes as u64
    }

    /// Whether it takes more bytes than it has memory.
    fn exceeds_memory(&self) -> bool
        ensures { result ≡ exceeds_memory self.now }
    {
        self.memory_size < self.file_size
    }

    /// Whether it has a byte outside the span.
    fn leaves_span(&self, geometry: &Geometry) -> bool
        ensures { result ≡ leaves_span geometry.now self.now }
    {
        self.memory_size > 0
            && (self.start < geometry.first() || self.end_address() > u64::from(geometry.past()))
    }

    /// Whether both have the same byte.
    fn shares_byte(&self, other: &Header) -> bool
        ensures { result ≡ shares_byte self.now other.now }
    {
        u64::from(self.start.max(other.start)) < self.end_address().min(other.end_address())
    }

    /// Whether it has a byte that an earlier one of the loads has.
    fn overlaps_earlier(&self, loads: &[Header]) -> bool
        ensures { result ≡ overlaps_earlier loads.now self.now }
    {
        loads.iter().any(|other| other.number < self.number && other.shares_byte(self))
    }
}
