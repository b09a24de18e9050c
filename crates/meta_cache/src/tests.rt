use crate::MetaCache;
use hier_types::PageNo;

/// The first byte of the chunk that is kept of a page.
fn byte_of(cache: &MetaCache, page: u32) -> Option<u8> {
    let mut chunk = [0; 64];
    if cache.copy(PageNo(page), &mut chunk) {
        Some(chunk[0])
    } else {
        None
    }
}

/// The first bytes of the chunks of pages 1 to 4.
fn bytes_of(cache: &MetaCache) -> [Option<u8>; 4] {
    [
        byte_of(cache, 1),
        byte_of(cache, 2),
        byte_of(cache, 3),
        byte_of(cache, 4),
    ]
}

/// Looks at pages with the first byte of their chunk, and whether each has one of two entries.
#[test]
fn the_entry_that_was_looked_at_least_recently_leaves(rt: HostRuntime) {
    let Ok(mut cache) = MetaCache::new(rt.alloc(), 2) else {
        panic!(rt; "no memory");
    };
    for (page, byte, found, kept) in [
        (1u32, 1u8, false, [Some(1u8), None, None, None]),
        (2, 2, false, [Some(1), Some(2), None, None]),
        (1, 3, true, [Some(3), Some(2), None, None]),
        (3, 4, false, [Some(3), None, Some(4), None]),
        (3, 5, true, [Some(3), None, Some(5), None]),
        (2, 6, false, [None, Some(6), Some(5), None]),
    ] {
        assert_eq!(rt; cache.look(PageNo(page), &[byte; 64]), found);
        assert_eq!(rt; bytes_of(&cache), kept);
    }
    cache.renew(PageNo(3), &[7; 64]);
    cache.renew(PageNo(1), &[8; 64]);
    assert_eq!(rt; bytes_of(&cache), [None, Some(6), Some(7), None]);
    assert!(rt; !cache.look(PageNo(4), &[9; 64]));
    assert_eq!(rt; bytes_of(&cache), [None, Some(6), None, Some(9)]);
    cache.forget(PageNo(4));
    cache.forget(PageNo(1));
    assert_eq!(rt; bytes_of(&cache), [None, Some(6), None, None]);
}
