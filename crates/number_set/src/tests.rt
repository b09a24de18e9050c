use crate::NumberSet;

/// The least number after each change. 4,096 and 65,535 stand under other words of the summary than 63 and 64 do.
#[test]
fn numbers_come_and_go(rt: HostRuntime) {
    let Ok(mut set) = NumberSet::new(rt.alloc()) else {
        panic!(rt; "no memory");
    };
    assert!(rt; set.first().is_none());
    for (number, on, least) in [
        (65_535u16, true, Some(65_535)),
        (4_096, true, Some(4_096)),
        (4_096, true, Some(4_096)),
        (64, true, Some(64)),
        (66, true, Some(64)),
        (63, true, Some(63)),
        (64, false, Some(63)),
        (63, false, Some(66)),
        (0, true, Some(0)),
        (0, false, Some(66)),
        (66, false, Some(4_096)),
        (4_096, false, Some(65_535)),
        (1, false, Some(65_535)),
        (65_535, false, None),
    ] {
        set.put(number.into(), on);
        assert_eq!(rt; set.has(number.into()), on, "put {number}");
        assert_eq!(rt; set.first(), least, "after {number}");
    }
}
