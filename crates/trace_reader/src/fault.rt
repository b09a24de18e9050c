// What is wrong with a trace.

/// The first fault of a trace.
#[derive(Clone, Copy, Debug, PartialEq, Eq)]
pub struct TraceFault {
    /// The number of the row, from 1. Rows that are passed over count.
    pub line: u64,
    pub kind: TraceKind,
}

/// What is wrong with a row, in the order in which it is looked for.
#[derive(Clone, Copy, Debug, PartialEq, Eq)]
pub enum TraceKind {
    /// It has more than 64 bytes, without its end.
    Long,
    /// Its first field is neither `L` nor `S`.
    Word,
    /// A load has not three fields, or a store not four.
    Fields,
    /// The address is not 1 to 8 hexadecimal digits.
    Number,
    /// The width is not `1`, `2` or `4`.
    Width,
    /// The value is not hexadecimal digits, 1 to twice the width.
    Value,
    /// The address is not a multiple of the width.
    Align,
    /// The span does not have the address.
    Range,
}
