//! One turn of repacking: which step a page takes next on its way to the plan of its content, and the step itself. The
//! page keeps its lines and can be read between any two turns. Contracts see a page as its shape and the bytes of its
//! block. A page that a turn leaves has the first bytes of the block that it had; the block itself is the caller's to trim.
#![tactic(auto)]

mod calls;
mod distance;
mod making;
#[cfg(test)]
mod tests;
mod turning;

pub use calls::{hoist, shift, turn};
pub use distance::far;
pub use making::make_turn;
pub use turning::{Turn, TurnKind, turn_by};
