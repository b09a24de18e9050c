// What the lines of a page take in its slots.
ghost use Rattle.std.specs.Prelude.{◌≡◌, ℕ, ◌<◌, ◌≤◌, List, Some, length, replicate, slice_set};
ghost use Rattle.hier_types.specs.declared.settings.Codec.{Codec as AnyCodec};
ghost use Rattle.hier_types.specs.Lines.{AreLines, zero_line};
ghost use Rattle.line_codec.specs.Layout.{IsTarget, exceptions_of, stored_sizes};
ghost use Rattle.page_plan.specs.KeptSizes.{kept_size, kept_sizes};
ghost use Rattle.page_plan.specs.PagePlan.{IsInRange, plan_of};
ghost use Rattle.page_plan.specs.Sizes.{order_of, row_by, row_in_slots};

use crate::layout::{encoded, exceptions};
use crate::least::{PagePlan, least_plan};
use hier_types::{Codec, Line};
use line_codec::stored_size;
use size_ledger::SizeRow;
use std::marker::Model;

/// What each line of a page takes in a slot, one byte a line: 1 for a line of zeros, 0 for a line that has no stored
/// size, and else the stored size, which is 2 or more. Where one line changes, the page is planned anew at the price of
/// that line's size.
#[derive(Clone, Copy, Debug, PartialEq, Eq)]
pub struct PageSizes {
    sizes: [u8; 64],
}

impl Model for PageSizes {
    ghost use Rattle.std.specs.Prelude.{◌≡◌, ℕ, List, length};

    ghost Value = { List ℕ };

    ghost view = { λ p. p.sizes };

    ghost invariant = { λ p. length p.sizes ≡ 64 };

    ghost inverse = { λ sizes. record { sizes = sizes } };
}

// The byte of one line. A line of zeros is told before any size is asked for.
fn byte_of(codec: Codec, line: &Line) -> u8
    ensures value { result ≡ kept_size codec line.now }
    ensures whole { length line.now ≡ 64 }
{
    if *line == [0; 64] {
        return 1;
    }
    stored_size(codec, line).unwrap_or(0)
}

impl PageSizes {
    /// The sizes of a page of zeros, which are the same under every codec.
    pub fn of_zeros() -> PageSizes
        ensures ones { result ≡ replicate 64 1 }
        ensures zeros { (codec : AnyCodec) → result ≡ kept_sizes codec (replicate 64 zero_line) }
    {
        PageSizes { sizes: [1; 64] }
    }

    /// The sizes of the lines of a page. The stored size of each line that is not zero is asked for once, and no other.
    pub fn of(codec: Codec, page: &[Line; 64]) -> PageSizes
        ensures value { result ≡ kept_sizes codec page.now }
        ensures lines { AreLines page.now }
    {
        let mut sizes = [0; 64];
        for index in 0..64usize {
            sizes[index] = byte_of(codec, &page[index]);
        }
        PageSizes { sizes }
    }

    /// Changes one line of the page for these bytes. It costs one line's size.
    pub fn set(&mut self, codec: Codec, line: usize, bytes: &Line)
        requires { line < 64 }
        ensures { self.new ≡ slice_set self.old line (kept_size codec bytes.now) }
    {
        self.sizes[line] = byte_of(codec, bytes);
    }

    /// The plan of every page whose lines have these sizes, and Zero exactly where each byte is 1. No line is looked
    /// at: the 64 bytes are counted once for each of the seven targets, and the counts are compared.
    pub fn plan(&self) -> PagePlan
        ensures value { (codec : AnyCodec) (lines : List (List ℕ)) → AreLines lines
            → kept_sizes codec lines ≡ self.now → result ≡ plan_of codec lines }
        ensures in_range { IsInRange result }
    {
        if self.sizes == [1; 64] {
            return PagePlan::Zero;
        }
        least_plan(&self.sizes)
    }

    /// How many of the page's lines a slot of `target` bytes does not hold; 0 to 64.
    pub fn exceptions(&self, target: u8) -> u8
        requires { IsTarget target }
        ensures value { (codec : AnyCodec) (lines : List (List ℕ)) → AreLines lines
            → kept_sizes codec lines ≡ self.now → result ≡ exceptions_of (stored_sizes codec lines) target }
        ensures most { result ≤ 64 }
    {
        exceptions(&self.sizes, target)
    }

    /// What a page whose lines have these sizes takes at a plan: the order of its block, its exceptions, and the
    /// bytes of its lines, each encoded where its slot holds it and else 64. One pass over the bytes; the size of a
    /// line of zeros is asked for once.
    pub fn row(&self, codec: Codec, plan: PagePlan) -> SizeRow
        ensures value { (lines : List (List ℕ)) → AreLines lines → kept_sizes codec lines ≡ self.now
            → result ≡ row_by plan (stored_sizes codec lines) }
        ensures order { result.order ≡ order_of plan }
    {
        match plan {
            PagePlan::Zero => SizeRow::ZEROS,
            PagePlan::Packed {
                order,
                target,
                exceptions,
            } => SizeRow {
                order: Some(order),
                exceptions,
                encoded: encoded(stored_size(codec, &[0; 64]), &self.sizes, target),
            },
            PagePlan::Raw => SizeRow::PLAIN,
        }
    }

    /// What a page whose lines have these sizes takes in a block of an order, where the slots of the lines below `at`
    /// have `small` bytes and the others `large`.
    pub fn row_in_slots(&self, codec: Codec, order: u8, small: u8, large: u8, at: u8) -> SizeRow
        requires small_is { IsTarget small }
        requires large_is { IsTarget large }
        requires at_in { at ≤ 64 }
        ensures value { (lines : List (List ℕ)) → AreLines lines → kept_sizes codec lines ≡ self.now
            → result ≡ row_in_slots order small large at (stored_sizes codec lines) }
        ensures order { result.order ≡ Some order }
    {
        let (front, back) = self.sizes.split_at(at as usize);
        let zero = stored_size(codec, &[0; 64]);
        SizeRow {
            order: Some(order),
            exceptions: exceptions(front, small) + exceptions(back, large),
            encoded: encoded(zero, front, small) + encoded(zero, back, large),
        }
    }
}
