//! What the crates of the simulator share, by subject: lines, pages and the guest's span; the traits between layers, with
//! a memory of plain lines; the settings, the word of beats and the codecs' names; what is counted; one access of a
//! trace; and the traits of what stands outside, with their forms in memory. Contracts see a memory as its lines, a port
//! as its bytes, and what stands outside as bytes that are told or not.
#![tactic(auto)]

mod access;
mod beats;
mod counts;
mod errand;
mod faults;
mod geometry;
mod layer;
mod plain_lines;
mod port;
mod settings;
mod shelf;
mod sink;
mod source;
#[cfg(test)]
mod tests;
mod units;

pub use access::Access;
pub use beats::{Beat, BeatWord};
pub use counts::{L1Counts, L2Counts, PageCounts, Totals};
pub use errand::Errand;
pub use faults::{Failed, NoMemory, NoSpace, ShelfFault};
pub use geometry::Geometry;
pub use layer::Layer;
pub use plain_lines::PlainLines;
pub use port::Port;
pub use settings::{Codec, SettingName, Settings};
pub use shelf::{ListShelf, Shelf};
pub use sink::{BytesSink, NullSink, Sink};
pub use source::{BytesSource, Source};
pub use units::{LINE_BYTES, Line, LineNo, PAGE_BYTES, PAGE_LINES, PageNo};
