// The lines of what the pages of a memory take.
ghost use Rattle.std.specs.Prelude.{◌≡◌, ◌^◌, ◌<◌};
ghost use Rattle.run_report.specs.ReportLines as lines;
ghost use Rattle.run_report.specs.TextLines.{texts_of};

use crate::text_line::TextLine;
use hier_types::{PAGE_BYTES, Totals};

/// The lines of the classes, exceptions, encoded bytes, bytes of blocks and the ratio.
pub(crate) fn totals_lines(totals: &Totals) -> [TextLine; 5]
    requires { lines.HasBlocks totals.now }
    ensures { texts_of result ≡ lines.totals_lines totals.now }
{
    [
        TextLine::of_numbers("classes", &classes(totals)),
        TextLine::of_numbers("exceptions", &[totals.exceptions]),
        TextLine::of_numbers("encoded", &[totals.encoded]),
        TextLine::of_numbers("blocks", &[totals.blocks]),
        TextLine::of_numbers("ratio", &[ratio(totals)]),
    ]
}

/// The number of pages in blocks of each order from 0 on.
pub(crate) fn classes(totals: &Totals) -> [u64; 4]
    ensures { result ≡ lines.classes totals.now }
{
    [
        u64::from(totals.c512),
        u64::from(totals.c1024),
        u64::from(totals.c2048),
        u64::from(totals.c4096),
    ]
}

/// The number of pages that have a block.
pub(crate) fn pages_with_block(totals: &Totals) -> u64
    ensures pages { result ≡ lines.pages_of totals.now }
    ensures fits { result < 2 ^ 34 }
{
    u64::from(totals.c512)
        + u64::from(totals.c1024)
        + u64::from(totals.c2048)
        + u64::from(totals.c4096)
}

/// 100 times the bytes of the pages that have a block by those of their blocks, rounded down; 0 where there are none.
pub(crate) fn ratio(totals: &Totals) -> u64
    requires { lines.HasBlocks totals.now }
    ensures { result ≡ lines.ratio totals.now }
{
    if totals.blocks == 0 {
        return 0;
    }
    100 * u64::from(PAGE_BYTES) * pages_with_block(totals) / totals.blocks
}
