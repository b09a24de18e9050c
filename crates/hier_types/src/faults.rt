// The answers other than Ok that layers, ports, sources, sinks and shelves give.
ghost use Rattle.std.specs.Prelude.{◌≡◌};

use crate::units::PageNo;
use std::alloc::{AllocError, AllocFailed};

/// A page outgrew its block, and no free place holds one of the order that it wants: 0 to 3, for 512 to 4,096 bytes.
#[derive(Clone, Copy, Debug, PartialEq, Eq)]
pub struct NoSpace {
    pub page: PageNo,
    pub order: u8,
}

/// No memory was left for what was to be made.
#[derive(Clone, Copy, Debug, PartialEq, Eq)]
pub struct NoMemory;

impl From<AllocError> for NoMemory {
    fn from(_: AllocError) -> Self {
        NoMemory
    }
}

impl<T: Drop> From<AllocFailed<T>> for NoMemory {
    fn from(_: AllocFailed<T>) -> Self {
        NoMemory
    }
}

/// A source or a sink failed.
#[derive(Clone, Copy, Debug, PartialEq, Eq)]
pub struct Failed;

/// Why a shelf gave no file.
#[derive(Clone, Copy, Debug, PartialEq, Eq)]
pub enum ShelfFault {
    /// It failed, or has no file of that name.
    Failed,
    /// The file has more bytes than the limit.
    TooLong,
    NoMemory,
}

impl From<AllocError> for ShelfFault {
    ghost use Rattle.hier_types.specs.declared.faults.ShelfFault.TheVariants as fault;

    ghost from_gives = { λ _ given. given ≡ fault.NoMemory };

    fn from(_: AllocError) -> Self {
        ShelfFault::NoMemory
    }
}
