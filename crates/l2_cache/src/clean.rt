// What the cleaner answers.
use hier_types::NoSpace;

/// What a turn of the cleaner did.
#[derive(Clone, Copy, Debug, PartialEq, Eq)]
pub enum Clean {
    /// A line was written below, and is clean.
    Done,
    /// The set has no dirty line.
    Nothing,
    /// The write below was refused, and the line stays dirty.
    PutOff(NoSpace),
}
