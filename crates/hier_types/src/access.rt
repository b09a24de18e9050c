// One access of a trace.

/// A load or a store of 1, 2 or 4 bytes at an address.
#[derive(Clone, Copy, Debug, PartialEq, Eq)]
pub enum Access {
    /// Gives the bytes there, the lowest first.
    Load { at: u32, width: u8 },
    /// Puts the low bytes of a value there.
    Store { at: u32, width: u8, value: u32 },
}
