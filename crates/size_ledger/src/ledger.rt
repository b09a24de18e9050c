// Totals that follow each page.
ghost use Rattle.std.specs.Prelude.{◌≡◌, ◌+◌, ◌<◌, ◌^◌};
ghost use Rattle.size_ledger.specs.Ranges.{HasKnownOrder, AreWithinPages};
ghost use Rattle.size_ledger.specs.Shares.{share, block_bytes, has_none, has_order, one_if, plus, no_pages, AreInRange, AreWithin};

use crate::row::SizeRow;
use hier_types::Totals;
use std::marker::Model;

/// The totals of the pages that were added and not removed again.
#[derive(Debug, Drop)]
pub struct Ledger {
    totals: Totals,
}

impl Model for Ledger {
    ghost use Rattle.std.specs.Prelude.{◌<◌, ◌^◌};
    ghost use Rattle.hier_types.specs.declared.counts.Totals.{Totals};

    ghost Value = { Totals };

    ghost view = { λ l. l.totals };

    // The range of its type: no share that the totals have is above it.
    ghost invariant = { λ l. l.totals.blocks < 2 ^ 64 };

    ghost inverse = { λ t. record { totals = t } };
}

/// The bytes of a page's block.
fn bytes_of_block(row: &SizeRow) -> u64
    requires { block_bytes row.now.order < 2 ^ 64 }
    ensures { result ≡ block_bytes row.now.order }
{
    match row.order {
        Some(order) => 512 * 2u64.pow(u32::from(order)),
        None => 0,
    }
}

/// One where the page's block has this order.
fn one_of(row: &SizeRow, order: u8) -> u32
    ensures { result ≡ one_if (has_order order row.now.order) }
{
    if row.order == Some(order) { 1 } else { 0 }
}

/// One where the page is of zeros.
fn one_of_zeros(row: &SizeRow) -> u32
    ensures { result ≡ one_if (has_none row.now.order) }
{
    if row.order.is_none() { 1 } else { 0 }
}

/// What a page adds to each total.
fn share_of(row: &SizeRow) -> Totals
    requires { block_bytes row.now.order < 2 ^ 64 }
    ensures { result ≡ share row.now }
{
    Totals {
        zero: one_of_zeros(row),
        c512: one_of(row, 0),
        c1024: one_of(row, 1),
        c2048: one_of(row, 2),
        c4096: one_of(row, 3),
        exceptions: u64::from(row.exceptions),
        encoded: u64::from(row.encoded),
        blocks: bytes_of_block(row),
    }
}

impl Ledger {
    /// No pages.
    pub fn new() -> Ledger
        ensures { result ≡ no_pages }
    {
        Ledger {
            totals: Totals::default(),
        }
    }

    /// Counts one more page: each total becomes greater by the page's share.
    pub fn add(&mut self, row: &SizeRow)
        requires { AreInRange (plus self.old (share row.now)) }
        ensures { self.new ≡ plus self.old (share row.now) }
    {
        let before = self.totals;
        let share = share_of(row);
        self.totals = Totals {
            zero: before.zero + share.zero,
            c512: before.c512 + share.c512,
            c1024: before.c1024 + share.c1024,
            c2048: before.c2048 + share.c2048,
            c4096: before.c4096 + share.c4096,
            exceptions: before.exceptions + share.exceptions,
            encoded: before.encoded + share.encoded,
            blocks: before.blocks + share.blocks,
        };
    }

    /// Counts one more page after so many, as `add` does. These are below 65,536, and so the totals stay in range
    /// whatever the pages take.
    pub fn add_page(&mut self, pages: usize, row: SizeRow)
        requires few { pages < 65536 }
        requires known { HasKnownOrder row }
        requires within { AreWithinPages pages self.old }
        ensures added { self.new ≡ plus self.old (share row) }
        ensures within { AreWithinPages (pages + 1) self.new }
    {
        self.add(&row);
    }

    /// Counts one page less: each total becomes smaller by the page's share.
    pub fn remove(&mut self, row: &SizeRow)
        requires { AreWithin (share row.now) self.old }
        ensures { self.old ≡ plus self.new (share row.now) }
    {
        let before = self.totals;
        let share = share_of(row);
        self.totals = Totals {
            zero: before.zero - share.zero,
            c512: before.c512 - share.c512,
            c1024: before.c1024 - share.c1024,
            c2048: before.c2048 - share.c2048,
            c4096: before.c4096 - share.c4096,
            exceptions: before.exceptions - share.exceptions,
            encoded: before.encoded - share.encoded,
            blocks: before.blocks - share.blocks,
        };
    }

    /// The totals as they stand.
    pub fn totals(&self) -> Totals
        ensures { result ≡ self.now }
    {
        self.totals
    }
}
