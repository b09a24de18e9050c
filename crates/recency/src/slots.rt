// Which slot of a set has a line, and which one is to take the next.
ghost use Rattle.std.specs.Prelude.{◌≡◌, ◌<◌, List, ℕ, length, nat_lt, if◌then◌else◌, option_map, slice_get, Some, IfSome};
ghost use Rattle.recency.specs.Uses.{removed, but_last, IsDistinct, AllBelow};
ghost use Rattle.recency.specs.Kept.{last_dirty};
ghost use Rattle.recency.specs.Slots.{entry_at, entries_of, IsTagged, IsSlotOf};

use crate::entry::Tag;
use crate::order::Order;
use crate::storage::tag_of;

/// The slot in use that has the line. The most recent one, which is asked for the most, is tried first.
pub fn slot_of(order: &Order, tags: &[Tag], ways: u32, line: u32) -> Option<u32>
    requires ways { ways ≡ order.now.ways }
    requires tagged { IsTagged order.now tags.now }
    ensures { IsSlotOf order.now.slots tags.now line result }
{
    if let Some(slot) = order.first() {
        if tag_of(tags, slot).line == line {
            return Some(slot);
        }
    }
    for slot in 0..ways {
        if tag_of(tags, slot).line == line && order.has(slot) {
            return Some(slot);
        }
    }
    None
}

/// The most recent slot.
pub(crate) fn first_slot(order: &Order) -> u32
    requires { 0 < length order.now.slots }
    ensures { slice_get order.now.slots 0 ≡ Some result }
{
    match order.first() {
        Some(slot) => slot,
        None => unreachable!(),
    }
}

/// A slot for one more line: one that is not in use, or else the least recent.
pub fn slot_to_fill(order: &Order, ways: u32) -> u32
    requires ways { ways ≡ order.now.ways }
    requires some { 0 < ways }
    requires distinct { IsDistinct order.now.slots }
    requires below { AllBelow order.now.slots order.now.ways }
    ensures inside { result < ways }
    ensures others { removed order.now.slots result ≡ (if nat_lt (length order.now.slots) ways then order.now.slots else but_last order.now.slots) }
{
    if order.len() < ways {
        return unused_slot(order, ways);
    }
    match order.last() {
        Some(slot) => slot,
        None => unreachable!(),
    }
}

/// The lowest slot that is not in use.
fn unused_slot(order: &Order, ways: u32) -> u32
    requires ways { ways ≡ order.now.ways }
    requires room { length order.now.slots < ways }
    ensures inside { result < ways }
    ensures others { removed order.now.slots result ≡ order.now.slots }
{
    for slot in 0..ways {
        if !order.has(slot) {
            return slot;
        }
    }
    unreachable!()
}

/// The least recent dirty slot.
pub fn last_dirty_slot(order: &Order, tags: &[Tag]) -> Option<u32>
    requires { IsTagged order.now tags.now }
    ensures inside { IfSome result (λ slot. slot < order.now.ways) }
    ensures entry { (bytes : List (List ℕ)) → last_dirty (entries_of tags.now bytes order.now.slots) ≡ option_map (entry_at tags.now bytes) result }
{
    let mut next = order.last();
    while let Some(slot) = next {
        if tag_of(tags, slot).dirty {
            return Some(slot);
        }
        next = order.before(slot);
    }
    None
}
