// How a run ends.
use hier_types::NoSpace;
use rv_core::Trap;

/// How a run ends.
#[derive(Clone, Copy, Debug, PartialEq, Eq)]
pub enum MachineEnd {
    /// The guest ended itself with a status.
    Exit(u32),
    /// An instruction trapped.
    Trap(Trap),
    /// As many instructions retired as the budget allows.
    Budget,
    /// A touch was refused: no free place holds a page that outgrew its own.
    Space(NoSpace),
    /// The input failed.
    InFault,
    /// The output failed.
    OutFault,
}
