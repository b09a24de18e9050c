//! The order in which slots were used, and sets of lines in the order of their use.
//! Contracts see a list of slot numbers, or of lines with their bytes and dirty marks, the most recent first.
//! It never asks a memory for a line, and moves no line's bytes when the order changes.
#![tactic(auto)]

mod entry;
mod line_set;
mod line_sets;
mod order;
mod ring;
mod slots;
mod storage;
#[cfg(test)]
mod tests;

pub use entry::{Entry, Tag};
pub use line_set::LineSet;
pub use line_sets::LineSets;
pub use order::Order;
pub use slots::{last_dirty_slot, slot_of, slot_to_fill};
pub use storage::{mark, set_tag, tag_of};
