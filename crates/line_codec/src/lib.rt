//! Lines under a codec: their sizes, how a line stands in a slot, which is a run of bytes with a header, and its
//! payload alone, for a holder that keeps elsewhere how it is read back. Contracts see a line, a slot and a payload
//! as lists of bytes, and a line's encoding as a list. Nothing here knows where a slot or a payload lies, or looks
//! past the encoding in a slot.
#![tactic(auto)]

mod payloads;
mod sizes;
mod slots;
#[cfg(test)]
mod tests;

pub use payloads::{Form, Packed, pack, unpack};
pub use sizes::{size, stored_size};
pub use slots::{from_slot, slots_say_lines, to_slot, used_size};
