// Tests of the lines and of JSON.
mod ends;
mod layouts;
mod reports;
mod surveys;

use hier_types::BytesSink;
use std::alloc::Global;
use std::test::Fail;

/// A note with room, of which a listed call appends so many bytes and fails.
fn note(alloc: Global, fail: Vec<(u64, usize)>) -> Result<BytesSink, Fail> {
    Ok(BytesSink::new(alloc, 512, fail).ok().ok_or("no memory")?)
}
