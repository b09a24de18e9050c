ghost use Rattle.std.specs.Prelude.{◌≡◌, ◌<◌};

use crate::{LineSet, LineSets, Order};

/// The most recent slot, the least recent one, and how many are in use.
fn ends(order: &Order) -> (Option<u32>, Option<u32>, u32) {
    (order.first(), order.last(), order.len())
}

#[test]
fn slots_in_the_order_of_their_use(rt: HostRuntime) {
    let Ok(mut order) = Order::new(rt.alloc(), 3) else {
        panic!(rt; "no memory");
    };
    assert_eq!(rt; ends(&order), (None, None, 0));
    order.use_slot(1);
    order.use_slot(0);
    order.use_slot(2);
    assert_eq!(rt; ends(&order), (Some(2), Some(1), 3));
    order.use_slot(1);
    assert_eq!(rt; ends(&order), (Some(1), Some(0), 3));
    assert_eq!(rt; (order.before(0), order.before(2)), (Some(2), Some(1)));
    assert_eq!(rt; order.before(1), None);
    order.drop_slot(2);
    order.drop_slot(2);
    assert_eq!(rt; ends(&order), (Some(1), Some(0), 2));
    assert_eq!(rt; (order.has(2), order.before(2)), (false, None));
    assert_eq!(rt; (order.has(0), order.before(0)), (true, Some(1)));
}

/// Puts a line in that is not kept.
fn keep(sets: &mut LineSets, line: u32, byte: u8) -> bool {
    let mut copy = [0; 64];
    if sets.copy_of(line, &mut copy) {
        return false;
    }
    sets.put_in(line, &[byte; 64]);
    true
}

/// Of lines 4, 6 and 8, which have one set of two ways, the least recent leaves; line 3 has the other set.
#[test]
fn the_least_recent_line_of_a_set_leaves(rt: HostRuntime) {
    let Ok(mut sets) = LineSets::new(rt.alloc(), 2, 2) else {
        panic!(rt; "no memory");
    };
    for (line, byte) in [(4u32, 1u8), (3, 2), (6, 3)] {
        assert!(rt; keep(&mut sets, line, byte));
    }
    assert!(rt; sets.touch(4));
    assert!(rt; !sets.touch(8));
    assert!(rt; keep(&mut sets, 8, 4));
    let mut copy = [0; 64];
    for (line, is_kept, byte) in [(4, true, 1), (3, true, 2), (8, true, 4), (6, false, 4)] {
        assert_eq!(rt; (sets.copy_of(line, &mut copy), copy[0]), (is_kept, byte));
    }
    assert_eq!(rt; (sets.set_number(6), sets.set_number(3)), (0, 1));
    assert!(rt; sets.dirty_victim(10).is_none());
    assert!(rt; sets.next_dirty(0).is_none());
    sets.forget(4);
    for (line, is_kept) in [(4, false), (3, true), (8, true)] {
        assert_eq!(rt; sets.copy_of(line, &mut copy), is_kept);
    }
}

/// Of lines 1 and 2 the first one is renewed, and is still the one that leaves; then the second one is forgotten.
#[test]
fn a_renewed_line_stays_in_its_place(rt: HostRuntime) {
    let Ok(mut set) = LineSet::new(rt.alloc(), 2) else {
        panic!(rt; "no memory");
    };
    set.put_in(1, &[1; 64]);
    set.put_in(2, &[2; 64]);
    set.renew(1, &[7; 64]);
    set.renew(3, &[8; 64]);
    let mut copy = [0; 64];
    for (line, is_kept, byte) in [(1, true, 7), (2, true, 2), (3, false, 2)] {
        assert_eq!(rt; (set.copy_of(line, &mut copy), copy[0]), (is_kept, byte));
    }
    set.put_in(3, &[3; 64]);
    set.forget(2);
    for (line, is_kept) in [(1, false), (2, false), (3, true)] {
        assert_eq!(rt; set.copy_of(line, &mut copy), is_kept);
    }
}
