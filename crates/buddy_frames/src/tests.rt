ghost use Rattle.std.specs.Prelude.{◌<◌, IfSome};

use crate::Frames;

#[test]
fn one_frame_of_blocks(rt: HostRuntime) {
    let Ok(mut frames) = Frames::new(rt.alloc(), 1) else {
        panic!(rt; "no memory");
    };
    let Some(first) = frames.take(0) else {
        panic!(rt; "no unit");
    };
    assert_eq!(rt; first.unit(), 0);
    let Some(second) = frames.take(1) else {
        panic!(rt; "no pair");
    };
    assert_eq!(rt; second.unit(), 2);
    let Ok(third) = frames.resize(first, 2) else {
        panic!(rt; "no four");
    };
    assert_eq!(rt; third.unit(), 4);
    let None = frames.take(3) else {
        panic!(rt; "a whole frame");
    };
    let Err(same) = frames.resize(second, 3) else {
        panic!(rt; "a whole frame");
    };
    assert_eq!(rt; same.unit(), 2);
    frames.give(same);
    frames.give(third);
    assert_eq!(rt; frames.free(3), 1);
}

/// The free blocks of each order, after a frame's block is trimmed to an order.
#[test]
fn trimming_frees_the_rest(rt: HostRuntime) {
    let rows = [
        (0u8, [1, 1, 1, 0]),
        (1, [0, 1, 1, 0]),
        (2, [0, 0, 1, 0]),
        (3, [0, 0, 0, 0]),
    ];
    for (order, free) in rows {
        let Ok(mut frames) = Frames::new(rt.alloc(), 1) else {
            panic!(rt; "no memory");
        };
        let Some(block) = frames.take(3) else {
            panic!(rt; "no frame");
        };
        assert!(rt; order <= block.order());
        let kept = frames.trim(block, order);
        assert_eq!(rt; (kept.unit(), kept.order()), (0, order));
        for (k, count) in (0u8..).zip(free) {
            assert_eq!(rt; frames.free(k), count);
        }
    }
}

/// Past 64 frames the lowest one is found through the set's next word.
#[test]
fn whole_frames_in_rising_order(rt: HostRuntime) {
    let Ok(mut frames) = Frames::new(rt.alloc(), 66) else {
        panic!(rt; "no memory");
    };
    for number in 0..66u32 {
        let Some(block) = frames.take(3) else {
            panic!(rt; "no frame");
        };
        assert_eq!(rt; block.unit(), 8 * number);
    }
    assert!(rt; frames.take(0).is_none());
}

/// The units of a block of an order.
fn units_of(order: u8) -> u32
    ensures { 0 < result }
{
    match order {
        0 => 1,
        1 => 2,
        2 => 4,
        _ => 8,
    }
}

/// The bits of these units from unit 0 on.
fn bits_of(order: u8) -> u32 {
    match order {
        0 => 0x1,
        1 => 0x3,
        2 => 0xf,
        _ => 0xff,
    }
}

/// Whether an aligned run is free; bit u of `used` tells whether unit u is in use.
fn is_free(used: u32, order: u8, unit: u32) -> bool {
    unit < 32 && unit % units_of(order) == 0 && (used >> unit) & bits_of(order) == 0
}

/// Whether a free block of an order begins here.
fn begins_block(used: u32, order: u8, unit: u32) -> bool {
    if !is_free(used, order, unit) {
        return false;
    }
    order >= 3 || !is_free(used, order + 1, unit - unit % units_of(order + 1))
}

/// The lowest free block of an order in four frames, by a look at each unit.
fn lowest_block(used: u32, order: u8) -> Option<u32>
    ensures { IfSome result (λ unit. unit < 32) }
{
    for unit in 0..32 {
        if begins_block(used, order, unit) {
            return Some(unit);
        }
    }
    None
}

/// Where a block of an order goes: to the lowest free block of the least order that is enough.
fn scanned(used: u32, order: u8) -> Option<u32>
    ensures { IfSome result (λ unit. unit < 32) }
{
    for from in order..4 {
        if let Some(unit) = lowest_block(used, from) {
            return Some(unit);
        }
    }
    None
}

/// The index answers as a scan of all units does, until nothing is left.
#[test]
fn takes_what_a_scan_finds(rt: HostRuntime) {
    let Ok(mut frames) = Frames::new(rt.alloc(), 4) else {
        panic!(rt; "no memory");
    };
    let mut used = 0u32;
    for order in [0u8, 1, 0, 2, 3, 1, 0, 2, 0, 3, 1, 4, 2, 0, 1, 0, 2, 1, 0, 3] {
        let taken = match frames.take(order) {
            Some(block) => Some(block.unit()),
            None => None,
        };
        let found = scanned(used, order);
        assert_eq!(rt; taken, found, "order {order}");
        if let Some(unit) = found {
            used |= bits_of(order) << unit;
        }
    }
}
