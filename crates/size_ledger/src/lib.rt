//! The running totals of what the pages of a memory take, page by page.
//! Contracts see the totals, and what each page adds to them or takes away as its share.
//! Nothing here plans a page, or knows which pages were counted.
#![tactic(auto)]

mod ledger;
mod row;
#[cfg(test)]
mod tests;

pub use ledger::Ledger;
pub use row::SizeRow;
