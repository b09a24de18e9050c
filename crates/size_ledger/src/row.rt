// What one page takes.

/// What one page takes.
#[derive(Clone, Copy, Debug, PartialEq, Eq)]
pub struct SizeRow {
    /// Its block has 512 * 2^order bytes. None is a page of zeros, which has no block.
    pub order: Option<u8>,
    /// The lines that its slots do not hold.
    pub exceptions: u8,
    /// The bytes of its lines, encoded or kept as they are.
    pub encoded: u16,
}

impl SizeRow {
    /// A page of zeros.
    pub const ZEROS: SizeRow = SizeRow {
        order: None,
        exceptions: 0,
        encoded: 0,
    };

    /// A page of plain bytes: 4,096 of them, in a block of as many.
    pub const PLAIN: SizeRow = SizeRow {
        order: Some(3),
        exceptions: 0,
        encoded: 4096,
    };
}
