// The pieces that a memory is cut into.

/// The bytes of a line.
pub const LINE_BYTES: u32 = 64;

/// The bytes of a page.
pub const PAGE_BYTES: u32 = 4096;

/// The lines of a page.
pub const PAGE_LINES: u32 = 64;

/// 64 bytes, the unit that caches and memories pass on.
pub type Line = [u8; 64];

/// The number of a line, counted in lines from the beginning of the guest's span.
#[derive(Clone, Copy, Debug, PartialEq, Eq)]
pub struct LineNo(pub u32);

/// The number of a page, counted in pages from the beginning of the guest's span.
#[derive(Clone, Copy, Debug, PartialEq, Eq)]
pub struct PageNo(pub u32);
