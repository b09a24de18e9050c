// What a run did, and what its memory takes.
use crate::end::End;
use hier_types::{L1Counts, L2Counts, NoSpace, PageCounts, Totals};

/// What both cache levels, the memory of pages and the cleaner counted.
#[derive(Clone, Copy, Debug, PartialEq, Eq)]
pub struct Counts {
    pub l1: L1Counts,
    pub l2: L2Counts,
    pub pages: PageCounts,
    /// Turns of the cleaner.
    pub cleaner_turns: u64,
}

/// What became of writing every changed line down to the pages.
#[derive(Clone, Copy, Debug, PartialEq, Eq)]
pub enum Settled {
    /// All lines are in their pages, which take this much.
    Done(Totals),
    /// A page was refused a block.
    Space(NoSpace),
}

/// How a run ended, what was counted up to its end, and what the memory takes once every line is in its page.
#[derive(Clone, Copy, Debug, PartialEq, Eq)]
pub struct Report {
    pub end: End,
    /// How many instructions retired, or accesses were made.
    pub retired: u64,
    pub counts: Counts,
    pub settled: Settled,
}
