// The access that one row writes.
ghost use Rattle.std.specs.Prelude.{◌≡◌, ◌<◌};
ghost use Rattle.trace_reader.specs.Access.{access_of, access_of_fields, load_of, placed, store_of};
ghost use Rattle.trace_reader.specs.Parts.{parts_behind};

use crate::fault::TraceKind;
use crate::numbers::{number_of, width_of};
use crate::parts::{SPACE, cut, is_only, three_fields, two_fields};
use hier_types::{Access, Geometry};

/// The most bytes of a row, without its end.
const ROW_BYTES: usize = 64;

/// The most digits of an address.
const ADDRESS_DIGITS: usize = 8;

/// The access that a row writes, or the first fault of the row.
#[tactic(auto, unfolding(crate::specs::Access::access_of, crate::specs::Access::access_of_fields))]
pub fn access_of(row: &[u8], geometry: &Geometry) -> Result<Access, TraceKind>
    ensures { result ≡ access_of geometry.now row.now }
{
    if row.len() > ROW_BYTES {
        return Err(TraceKind::Long);
    }
    let (word, fields) = cut(row, SPACE);
    if is_only(word, b'L') {
        return load_of(fields, geometry);
    }
    if is_only(word, b'S') {
        return store_of(fields, geometry);
    }
    Err(TraceKind::Word)
}

#[tactic(auto, unfolding(crate::specs::Access::load_of))]
fn load_of(fields: Option<&[u8]>, geometry: &Geometry) -> Result<Access, TraceKind>
    ensures { result ≡ load_of geometry.now (parts_behind 32 fields.entry) }
{
    let Some((address, width)) = two_fields(fields) else {
        return Err(TraceKind::Fields);
    };
    let Some(at) = number_of(address, ADDRESS_DIGITS) else {
        return Err(TraceKind::Number);
    };
    let Some(width) = width_of(width) else {
        return Err(TraceKind::Width);
    };
    placed(Access::Load { at, width }, at, width, geometry)
}

#[tactic(auto, unfolding(crate::specs::Access::store_of))]
fn store_of(fields: Option<&[u8]>, geometry: &Geometry) -> Result<Access, TraceKind>
    ensures { result ≡ store_of geometry.now (parts_behind 32 fields.entry) }
{
    let Some((address, width, value)) = three_fields(fields) else {
        return Err(TraceKind::Fields);
    };
    let Some(at) = number_of(address, ADDRESS_DIGITS) else {
        return Err(TraceKind::Number);
    };
    let Some(width) = width_of(width) else {
        return Err(TraceKind::Width);
    };
    let Some(value) = number_of(value, 2 * width as usize) else {
        return Err(TraceKind::Value);
    };
    placed(Access::Store { at, width, value }, at, width, geometry)
}

/// The access, where its address is a multiple of the width and the span has it.
fn placed(access: Access, at: u32, width: u8, geometry: &Geometry) -> Result<Access, TraceKind>
    requires { 0 < width }
    ensures { result ≡ placed geometry.now at width access }
{
    if at % u32::from(width) != 0 {
        return Err(TraceKind::Align);
    }
    if !geometry.has(at) {
        return Err(TraceKind::Range);
    }
    Ok(access)
}
