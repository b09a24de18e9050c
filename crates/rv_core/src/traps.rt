// What an exception tells.

/// An exception: its cause by the privileged manual's numbers (table "mcause"), the pc of the instruction, and the value
/// that the trap gives ("mtval").
#[derive(Clone, Copy, Debug, PartialEq, Eq)]
pub struct Trap {
    pub cause: u8,
    pub pc: u32,
    pub value: u32,
}
