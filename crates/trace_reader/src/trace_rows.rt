// Traces, read row by row and as a whole.
ghost use Rattle.std.specs.Prelude.{◌≡◌, None};
ghost use Rattle.trace_reader.specs.Rows.{numbered_rows};
ghost use Rattle.trace_reader.specs.Trace.{Counts, Reads};

use crate::access_row::access_of;
use crate::fault::TraceFault;
use crate::rows::next_row;
use hier_types::{Access, Geometry};
use std::marker::Model;

/// The accesses of a trace, in order. After a fault there are no more.
#[derive(Debug, Drop)]
pub struct TraceRows<'a> {
    geometry: Geometry,
    left: &'a [u8],
    number: u64,
    fault: Option<TraceFault>,
}

impl<'a> Model for TraceRows<'a> {
    ghost use Rattle.std.specs.Prelude.{◌+◌, ◌≤◌, ◌^◌, length};
    ghost use Rattle.trace_reader.specs.Trace.{Reading};

    ghost Value = { Reading };

    ghost view = { λ r. record { span = r.geometry; left = r.left.now; number = r.number; fault = r.fault } };

    ghost invariant = { λ r. r.number + length r.left.now ≤ 2 ^ 63 };
}

impl<'a> TraceRows<'a> {
    /// The rows of these bytes, for a memory of this span.
    pub fn new(bytes: &'a [u8], geometry: Geometry) -> Self
        ensures { result ≡ record { span = geometry; left = bytes.now; number = 1; fault = None } }
    {
        TraceRows {
            geometry,
            left: bytes,
            number: 1,
            fault: None,
        }
    }

    /// The access of the next row that is not passed over, or None at the end. The fault of that row, where it has
    /// one; from then on that same fault.
    pub fn read_row(&mut self) -> Result<Option<Access>, TraceFault>
        ensures { Reads self.old result self.new }
    {
        if let Some(fault) = self.fault {
            return Err(fault);
        }
        let Some(row) = next_row(self.left, self.number) else {
            return Ok(None);
        };
        match access_of(row.text, &self.geometry) {
            Ok(access) => {
                self.left = row.behind;
                self.number = row.number + 1;
                Ok(Some(access))
            }
            Err(kind) => {
                let fault = TraceFault {
                    line: row.number,
                    kind,
                };
                self.fault = Some(fault);
                Err(fault)
            }
        }
    }
}

/// The number of accesses of a trace, or its first fault.
pub fn check(bytes: &[u8], geometry: Geometry) -> Result<u64, TraceFault>
    ensures { Counts geometry (numbered_rows 1 bytes.now) result }
{
    let mut rows = TraceRows::new(bytes, geometry);
    let mut count = 0;
    while rows.read_row()?.is_some() {
        count += 1;
    }
    Ok(count)
}
