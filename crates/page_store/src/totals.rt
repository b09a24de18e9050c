// What a page takes as it lies.
ghost use Rattle.std.specs.Prelude.{◌≡◌, ℕ, List};
ghost use Rattle.hier_types.specs.Lines.{AreLines};
ghost use Rattle.line_codec.specs.Layout.{stored_sizes};
ghost use Rattle.page_plan.specs.KeptSizes.{kept_sizes};
ghost use Rattle.page_store.specs.Rooms.{HasTarget};
ghost use Rattle.page_store.specs.Rows.{row_of_shape};
ghost use Rattle.size_ledger.specs.Ranges.{AreWithinPages, HasKnownOrder};
ghost use Rattle.size_ledger.specs.Shares.{AreWithin, plus, share};

use hier_types::Codec;
use page_plan::PageSizes;
use page_slots::{Shape, Slots};
use size_ledger::{Ledger, SizeRow};

/// What a page of a shape takes whose lines have these sizes, whether it is at its plan or not.
pub(crate) fn row_of_shape(codec: Codec, shape: Shape, sizes: &PageSizes) -> SizeRow
    requires { HasTarget shape }
    ensures { (lines : List (List ℕ)) → AreLines lines → kept_sizes codec lines ≡ sizes.now
        → result ≡ row_of_shape shape (stored_sizes codec lines) }
{
    match shape {
        Shape::Zero => SizeRow::ZEROS,
        Shape::Raw => SizeRow::PLAIN,
        Shape::Slotted(Slots::Packed { order, target }) => {
            sizes.row_in_slots(codec, order, target, target, 0)
        }
        Shape::Slotted(
            Slots::Mid {
                order,
                small,
                large,
                at,
            },
        ) => sizes.row_in_slots(codec, order, small, large, at),
    }
}

/// What a page took is taken out of the totals, and what it takes now is added.
pub(crate) fn replace_row(ledger: &mut Ledger, before: SizeRow, after: SizeRow)
    requires within { AreWithin (share before) ledger.old }
    requires most { AreWithinPages 65536 ledger.old }
    requires known { HasKnownOrder after }
    ensures { plus ledger.new (share before) ≡ plus ledger.old (share after) }
{
    ledger.remove(&before);
    ledger.add(&after);
}
