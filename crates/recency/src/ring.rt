// Links of a ring of numbers: each number has the next one and the one before.
ghost use Rattle.std.specs.Prelude.{◌≡◌, ◌<◌, length, slice_index, slice_set, IfOk};
ghost use Rattle.recency.specs.Ring.{LeadsToItself};

use std::alloc::{AllocError, Global};

/// Links of the numbers up to the last one, each of which leads to itself.
pub(crate) fn self_links(alloc: Global, last: u32) -> Result<Vec<u32>, AllocError>
    ensures { IfOk result (λ links. LeadsToItself links.items last) }
{
    let mut links = Vec::with_capacity(alloc, last as usize + 1)?;
    for number in 0..last {
        links.push(number)?;
    }
    links.push(last)?;
    Ok(links)
}

/// Where a number leads.
pub(crate) fn link_of(links: &Vec<u32>, number: u32) -> u32
    requires { number < length links.now.items }
    ensures { result ≡ slice_index links.now.items number }
{
    links[number as usize]
}

/// Takes a number out of its ring.
pub(crate) fn unlink(next: &mut Vec<u32>, prev: &mut Vec<u32>, number: u32)
    requires number { number < length next.old.items }
    requires before { slice_index prev.old.items number < length next.old.items }
    requires after { slice_index next.old.items number < length prev.old.items }
    requires back { number < length prev.old.items }
    ensures next { next.new.items ≡ slice_set (slice_set next.old.items (slice_index prev.old.items number) (slice_index next.old.items number)) number number }
    ensures prev { prev.new.items ≡ slice_set prev.old.items (slice_index next.old.items number) (slice_index prev.old.items number) }
{
    let before = prev[number as usize];
    let after = next[number as usize];
    next[before as usize] = after;
    prev[after as usize] = before;
    next[number as usize] = number;
}

/// Puts a number into a ring, behind its end.
pub(crate) fn link_behind(next: &mut Vec<u32>, prev: &mut Vec<u32>, end: u32, number: u32)
    requires end { end < length next.old.items }
    requires number { number < length next.old.items }
    requires head { slice_index next.old.items end < length prev.old.items }
    requires back { number < length prev.old.items }
    ensures next { next.new.items ≡ slice_set (slice_set next.old.items end number) number (slice_index next.old.items end) }
    ensures prev { prev.new.items ≡ slice_set (slice_set prev.old.items number end) (slice_index next.old.items end) number }
{
    let head = next[end as usize];
    next[end as usize] = number;
    prev[number as usize] = end;
    next[number as usize] = head;
    prev[head as usize] = number;
}
