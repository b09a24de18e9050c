// What cache levels and a memory of pages count. A count that has reached the end of its 64 bits stays there.

/// The touches of a first level that found their line and those that did not, and the lines that misses wrote below.
#[derive(Clone, Copy, Debug, Default, PartialEq, Eq)]
pub struct L1Counts {
    pub hits: u64,
    pub misses: u64,
    pub write_backs: u64,
}

/// The reads and writes of a second level, and how many of each found their line.
#[derive(Clone, Copy, Debug, Default, PartialEq, Eq)]
pub struct L2Counts {
    pub reads: u64,
    pub read_hits: u64,
    pub writes: u64,
    pub write_hits: u64,
}

/// How often a memory of pages was asked, and how often it moved what it keeps.
#[derive(Clone, Copy, Debug, Default, PartialEq, Eq)]
pub struct PageCounts {
    /// Lines that were read.
    pub reads: u64,
    /// Lines that were written.
    pub writes: u64,
    /// Look-ups of a page's metadata that found it in the metadata cache.
    pub meta_hits: u64,
    /// Look-ups of a page's metadata that did not.
    pub meta_misses: u64,
    /// Turns of the mover.
    pub mover_turns: u64,
    /// Turns that brought a page to its plan outside the mover's.
    pub tidy_turns: u64,
}

/// What the pages of a memory take.
#[derive(Clone, Copy, Debug, Default, PartialEq, Eq)]
pub struct Totals {
    /// Pages of zeros, which have no block.
    pub zero: u32,
    /// Pages in a block of 512 bytes.
    pub c512: u32,
    /// Pages in a block of 1,024 bytes.
    pub c1024: u32,
    /// Pages in a block of 2,048 bytes.
    pub c2048: u32,
    /// Pages in a block of 4,096 bytes.
    pub c4096: u32,
    /// Lines that their page's slots do not hold.
    pub exceptions: u64,
    /// The bytes of all encoded lines and of the lines that are kept as they are.
    pub encoded: u64,
    /// The bytes of all blocks.
    pub blocks: u64,
}
