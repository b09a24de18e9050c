// What one page takes.
ghost use Rattle.std.specs.Prelude.{◌≡◌};
ghost use Rattle.page_plan.specs.Sizes as spec;

use hier_types::{Codec, Line};
use page_plan::PageSizes;
use size_ledger::SizeRow;

/// What a page takes at its plan.
pub(crate) fn row_of(codec: Codec, page: &[Line; 64]) -> SizeRow
    ensures { result ≡ spec.row_of codec page.now }
{
    let sizes = PageSizes::of(codec, page);
    sizes.row(codec, sizes.plan())
}
