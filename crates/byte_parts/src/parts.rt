// Parts of a row of bytes. All indexes and counts are in bytes.
ghost use Rattle.std.specs.Prelude.{◌≡◌, ◌≤◌, ◌+◌, ◌++◌, length, drop};
ghost use Rattle.byte_parts.specs.Parts.{part, written, ChangesWithin};

/// Writes these bytes over those of the row from index `at` on. The row has to have so many there.
#[tactic(auto, using(crate::proofs::PartLemmas::writes))]
pub fn write_part(store: &mut [u8], at: usize, bytes: &[u8])
    requires { at + length bytes.now ≤ length store.old }
    ensures changes { ChangesWithin at (length bytes.now) store.old store.new }
    ensures there { part at (length bytes.now) store.new ≡ bytes.now }
    ensures value { store.new ≡ written at bytes.now store.old }
{
    store[at..at + bytes.len()].copy_from_slice(bytes);
}

/// Copies so many bytes of the row from index `from` to index `to`. Both parts have to lie within the row, and may
/// overlap: the second one becomes what the first one was.
pub fn move_part(store: &mut [u8], from: usize, count: usize, to: usize)
    requires from { from + count ≤ length store.old }
    requires to { to + count ≤ length store.old }
    ensures changes { ChangesWithin to count store.old store.new }
    ensures there { part to count store.new ≡ part from count store.old }
{
    store.copy_within(from..from + count, to);
}

/// Copies so many bytes of the row, from index `at` on, to the front of `into`, whose bytes behind them stay. Both have
/// to have so many there.
#[tactic(auto, unfolding(crate::specs::Parts::part))]
pub fn read_part(store: &[u8], at: usize, count: usize, into: &mut [u8])
    requires inside { at + count ≤ length store.now }
    requires most { count ≤ length into.old }
    ensures { into.new ≡ part at count store.now ++ drop count into.old }
{
    into[..count].copy_from_slice(&store[at..at + count]);
}
