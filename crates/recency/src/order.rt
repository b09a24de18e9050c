// The order in which slots were used.
ghost use Rattle.std.specs.Prelude.{◌≡◌, ◌<◌, false, [], ◌∷◌, length, slice_get, IfOk};
ghost use Rattle.hier_types.specs.Settings.{IsWithin};
ghost use Rattle.recency.specs.Uses.{has, removed, last_of, more_recent};

use crate::ring::{link_behind, link_of, self_links, unlink};
use hier_types::NoMemory;
use std::alloc::Global;
use std::marker::Model;

/// Slots below `ways`, some of them in use, in the order of their last use. The slots in use stand in a ring of links
/// that goes through the number `ways`; any other slot leads to itself. Each call takes the same few steps.
#[derive(Debug, Drop)]
pub struct Order {
    ways: u32,
    next: Vec<u32>,
    prev: Vec<u32>,
    // The most recent slot, as the ring has it: it is asked for at every touch.
    head: u32,
    count: u32,
}

impl Model for Order {
    ghost use Rattle.recency.specs.Uses.{Used};
    ghost use Rattle.recency.specs.Ring.{slots_of, IsLinked};

    ghost Value = { Used };

    ghost view = { λ a. record { ways = a.ways; slots = slots_of a.next.items a.ways } };

    ghost invariant = { λ a. IsLinked a.next.items a.prev.items a.ways a.head a.count };
}

impl Order {
    /// No slot is in use, of so many, 1 to 1,024.
    pub fn new(alloc: Global, ways: u32) -> Result<Order, NoMemory>
        requires { IsWithin 1 1024 ways }
        ensures { IfOk result (λ order. order ≡ record { ways = ways; slots = [] }) }
    {
        let next = self_links(alloc, ways)?;
        let prev = self_links(alloc, ways)?;
        Ok(Order {
            ways,
            next,
            prev,
            head: ways,
            count: 0,
        })
    }

    /// The slot becomes the most recent, whether it was in use or not.
    pub fn use_slot(&mut self, slot: u32)
        requires { slot < self.old.ways }
        ensures { self.new ≡ record { ways = self.old.ways; slots = slot ∷ removed self.old.slots slot } }
    {
        self.drop_slot(slot);
        self.put(slot);
    }

    /// The slot is no longer in use. Where it was not, nothing changes.
    pub fn drop_slot(&mut self, slot: u32)
        requires { slot < self.old.ways }
        ensures after { self.new ≡ record { ways = self.old.ways; slots = removed self.old.slots slot } }
        ensures absent { has self.new.slots slot ≡ false }
    {
        if link_of(&self.next, slot) == slot {
            return;
        }
        unlink(&mut self.next, &mut self.prev, slot);
        self.head = link_of(&self.next, self.ways);
        self.count -= 1;
    }

    /// A slot that is not in use becomes the most recent.
    fn put(&mut self, slot: u32)
        requires inside { slot < self.old.ways }
        requires absent { has self.old.slots slot ≡ false }
        ensures { self.new ≡ record { ways = self.old.ways; slots = slot ∷ self.old.slots } }
    {
        link_behind(&mut self.next, &mut self.prev, self.ways, slot);
        self.head = slot;
        self.count += 1;
    }

    /// The most recent slot.
    pub fn first(&self) -> Option<u32>
        ensures { result ≡ slice_get self.now.slots 0 }
    {
        if self.head == self.ways {
            None
        } else {
            Some(self.head)
        }
    }

    /// The least recent slot.
    pub fn last(&self) -> Option<u32>
        ensures { result ≡ last_of self.now.slots }
    {
        let slot = link_of(&self.prev, self.ways);
        if slot == self.ways { None } else { Some(slot) }
    }

    /// The slot that was used next after this one. None where this one is the most recent or not in use.
    pub fn before(&self, slot: u32) -> Option<u32>
        requires { slot < self.now.ways }
        ensures { result ≡ more_recent self.now.slots slot }
    {
        if link_of(&self.next, slot) == slot {
            return None;
        }
        let newer = link_of(&self.prev, slot);
        if newer == self.ways {
            None
        } else {
            Some(newer)
        }
    }

    /// Whether the slot is in use.
    pub fn has(&self, slot: u32) -> bool
        requires { slot < self.now.ways }
        ensures { result ≡ has self.now.slots slot }
    {
        link_of(&self.next, slot) != slot
    }

    /// How many slots are in use.
    pub fn len(&self) -> u32
        ensures { result ≡ length self.now.slots }
    {
        self.count
    }
}
