// What a set keeps of a line.
use hier_types::Line;

/// A line that is kept: its number, its bytes, and whether they differ from those below.
#[derive(Clone, Copy)]
pub struct Entry {
    pub line: u32,
    pub bytes: Line,
    pub dirty: bool,
}

/// The mark of a slot: the number of its line, and whether its bytes differ from those below.
#[derive(Clone, Copy)]
pub struct Tag {
    pub line: u32,
    pub dirty: bool,
}
