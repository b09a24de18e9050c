//! One page in the bytes of its block: where its lines stand, in slots and chunks, and how they are read and written.
//! Contracts see a page as the list of its 64 lines, which a descriptor and the bytes of the block determine.
//! It never looks at the bytes of another page, never takes or gives back a block, and never picks a page's target.
#![tactic(auto)]

mod desc;
mod form;
mod laying;
mod moving;
mod placing;
mod putting;
mod reading;
#[cfg(test)]
mod tests;

pub use desc::{Desc, Shape, Slots};
pub use laying::{lay, lay_raw, slotted_pages_have_room};
pub use moving::exceptions_between;
pub use placing::{
    PlaceKind, PlaceRow, lines_have_one_place, place, places_are_apart, places_fit,
    places_suit_lines,
};
pub use putting::{PutResult, put};
pub use reading::{gather, get};
