//! ELF files of 32 bits, and the memory that their programs begin with. Contracts see an image as the guest's span
//! and the file's bytes; what it puts at an address is a function of these. It reads no section and moves no byte
//! of the file.
#![tactic(auto)]

mod fault;
mod fields;
mod file_header;
mod headers;
mod image;
mod loads;
mod read;
#[cfg(test)]
mod tests;

pub use fault::{ImageFault, ImageKind};
pub use image::Image;
pub use read::read_image;
