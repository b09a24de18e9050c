// Many pages, measured side by side.
ghost use Rattle.std.specs.Prelude.{◌≡◌, ◌+◌, ◌<◌, ◌≤◌, All, length, map, IfOk};
ghost use Rattle.page_plan.specs.Pages.{page_of, pages_of};
ghost use Rattle.page_plan.specs.Sizes.{row_of, sizes_of_memory};
ghost use Rattle.sim_survey.specs.Filled.{page_count, lines_of_filled};
ghost use Rattle.size_ledger.specs.Ranges.{HasKnownOrder};
ghost use Rattle.size_ledger.specs.Shares.{totals_of};

use crate::measure;
use crate::page_bytes::page_at;
use hier_types::{Codec, NoMemory, PAGE_BYTES, Totals};
use rayon::prelude::*;
use size_ledger::{Ledger, SizeRow};
use std::alloc::{AllocError, Global};
use std::thread::Threads;

/// What each page of the bytes takes, in order.
fn rows<R: Threads + Sync>(
    rt: &R,
    alloc: Global,
    codec: Codec,
    bytes: &[u8],
) -> Result<Vec<SizeRow>, AllocError>
    requires { length bytes.now ≤ 67108864 }
    ensures { IfOk result (λ rows. rows.items ≡ map (row_of codec) (pages_of (lines_of_filled bytes.now))) }
{
    let pages = bytes.len().div_ceil(PAGE_BYTES as usize);
    (0..pages)
        .into_par_iter()
        .map(
            |page: usize| -> SizeRow
                requires { (length bytes.now ≤ 67108864) × (page < page_count (length bytes.now)) }
                ensures { result ≡ row_of codec (page_of (lines_of_filled bytes.entry.now) page) }
            { measure::row_of(codec, &page_at(bytes, page)) },
        )
        .collect(rt, alloc)
}

/// The totals of some pages.
fn sum(rows: &[SizeRow]) -> Totals
    requires few { length rows.now ≤ 16384 }
    requires known { All HasKnownOrder rows.now }
    ensures { result ≡ totals_of rows.now }
{
    let mut ledger = Ledger::new();
    for page in 0..rows.len() {
        ledger.add_page(page, rows[page]);
    }
    ledger.totals()
}

/// What the pages of the bytes take at their plans under a codec. The bytes are cut into pages of 4,096, of which the last
/// is filled with zeros; no bytes have no page. There are at most 67,108,864 bytes. Pages are measured in as many threads
/// as there are processors, and the totals are the same for any number of them.
pub fn survey<R: Threads + Sync>(
    rt: &R,
    alloc: Global,
    codec: Codec,
    bytes: &[u8],
) -> Result<Totals, NoMemory>
    requires { length bytes.now ≤ 67108864 }
    ensures { IfOk result (λ totals. totals ≡ sizes_of_memory codec (lines_of_filled bytes.now)) }
{
    let rows = rows(rt, alloc, codec, bytes)?;
    Ok(sum(&rows))
}
