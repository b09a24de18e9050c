use super::*;
use hier_types::{Codec, Totals};
use sample_lines::plain;
use std::alloc::Global;
use std::test::Fail;

/// The pages that are measured at once.
const PAGES: usize = 4096;

// Pages of zeros, with plain lines at the beginning of each: as many as its number modulo 64.
fn pages(alloc: Global) -> Result<Vec<u8>, Fail> {
    let plain = plain();
    let mut bytes = Vec::new(alloc);
    for page in 0..PAGES {
        for line in 0..64usize {
            let line = if line < page % 64 { &plain } else { &[0; 64] };
            bytes.extend_from_slice(line)?;
        }
    }
    Ok(bytes)
}

fn plus(a: Totals, b: Totals) -> Totals {
    Totals {
        zero: a.zero.wrapping_add(b.zero),
        c512: a.c512.wrapping_add(b.c512),
        c1024: a.c1024.wrapping_add(b.c1024),
        c2048: a.c2048.wrapping_add(b.c2048),
        c4096: a.c4096.wrapping_add(b.c4096),
        exceptions: a.exceptions.wrapping_add(b.exceptions),
        encoded: a.encoded.wrapping_add(b.encoded),
        blocks: a.blocks.wrapping_add(b.blocks),
    }
}

#[test]
fn three_plain_lines(rt: HostRuntime) {
    let mut bytes = [0; 8192];
    for line in 0..3usize {
        bytes[64 * line..64 * line + 64].copy_from_slice(&plain());
    }
    for (codec, encoded) in [(Codec::Bdi, 314), (Codec::Fpc, 375)] {
        let one = Totals {
            c512: 1,
            exceptions: 3,
            encoded,
            blocks: 512,
            ..Totals::default()
        };
        let two = Totals { zero: 1, ..one };
        for (length, expected) in [
            (8192, two),
            (4097, two),
            (4096, one),
            (192, one),
            (0, Totals::default()),
        ] {
            let totals = survey(&rt, rt.alloc(), codec, &bytes[..length]);
            assert_eq!(rt; totals, Ok(expected), "{length} bytes");
        }
    }
}

#[test]
fn many_pages_are_the_sum_of_single_ones(rt: HostRuntime) -> Result<(), Fail> {
    let bytes = pages(rt.alloc())?;
    if bytes.len() != 4096 * PAGES {
        return Err("not whole pages".into());
    }
    let mut sum = Totals::default();
    for page in 0..PAGES {
        let one = survey(
            &rt,
            rt.alloc(),
            Codec::Bdi,
            &bytes[4096 * page..4096 * page + 4096],
        );
        sum = plus(sum, one.ok().ok_or("no memory")?);
    }
    let whole = survey(&rt, rt.alloc(), Codec::Bdi, &bytes);
    assert_eq!(rt; whole, Ok(sum));
    let expected = Totals {
        zero: 64,
        c512: 64 * 3,
        c1024: 64 * 8,
        c2048: 64 * 16,
        c4096: 64 * 36,
        exceptions: 64 * 378,
        encoded: 64 * 174_348,
        blocks: 64 * 189_952,
    };
    assert_eq!(rt; sum, expected);
    Ok(())
}
