//! Base-delta-immediate compression of lines of 64 bytes (Pekhimenko et al., "Base-Delta-Immediate
//! Compression", PACT 2012): which row a line takes, its encoding, and the line that an encoding says.
//! Contracts see a line and a payload as lists of bytes, and a row by its number in the table of rows.
//! Nothing here allocates, keeps state or knows where an encoding is put.
#![tactic(auto)]

mod bytes;
mod decode;
mod elements;
mod encode;
mod mask;
mod row;
mod shape;
#[cfg(test)]
mod tests;

pub use decode::bdi_decode;
pub use encode::{Coded, bdi_encode};
pub use mask::{mask_from_bytes, mask_to_bytes};
pub use row::{bdi_row, mask_bytes, row_size};
