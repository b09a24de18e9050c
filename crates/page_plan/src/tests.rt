use super::*;
use hier_types::{Codec, Line};
use sample_lines::{plain, rising};
use size_ledger::SizeRow;

fn page_of(line: Line, first: Line, count: usize) -> [Line; 64] {
    let mut page = [line; 64];
    for index in 0..64usize {
        if index < count {
            page[index] = first;
        }
    }
    page
}

fn packed(order: u8, target: u8, exceptions: u8) -> PagePlan {
    PagePlan::Packed {
        order,
        target,
        exceptions,
    }
}

#[test]
fn zeros_and_plain_lines(rt: HostRuntime) {
    for codec in [Codec::Bdi, Codec::Fpc] {
        for (count, expected) in [
            (0, PagePlan::Zero),
            (3, packed(0, 4, 3)),
            (4, packed(1, 4, 4)),
            (11, packed(1, 4, 11)),
            (12, packed(2, 4, 12)),
            (27, packed(2, 4, 27)),
            (28, PagePlan::Raw),
            (64, PagePlan::Raw),
        ] {
            let page = page_of([0; 64], plain(), count);
            assert_eq!(rt; plan(codec, &page), expected);
        }
    }
}

#[test]
fn rising_and_plain_lines(rt: HostRuntime) {
    for (count, expected) in [
        (0, packed(2, 24, 0)),
        (7, packed(2, 24, 7)),
        (8, PagePlan::Raw),
    ] {
        let page = page_of(rising(0x0001_0000, 4), plain(), count);
        assert_eq!(rt; plan(Codec::Bdi, &page), expected);
    }
}

#[test]
fn least_order_before_fewest_exceptions(rt: HostRuntime) {
    for (count, expected) in [(8, packed(1, 4, 8)), (12, packed(2, 24, 0))] {
        let page = page_of([0; 64], rising(0x0001_0000, 4), count);
        assert_eq!(rt; plan(Codec::Bdi, &page), expected);
    }
}

#[test]
fn changed_line_against_changed_page(rt: HostRuntime) {
    for codec in [Codec::Bdi, Codec::Fpc] {
        for line in [[0; 64], plain(), rising(0x0001_0000, 4)] {
            let mut page = page_of([0; 64], plain(), 3);
            let mut sizes = PageSizes::of(codec, &page);
            for index in [0, 7, 63] {
                page[index] = line;
                sizes.set(codec, index, &line);
                assert_eq!(rt; sizes, PageSizes::of(codec, &page));
                assert_eq!(rt; sizes.plan(), plan(codec, &page));
            }
        }
    }
}

#[test]
fn rows_of_three_plain_lines(rt: HostRuntime) {
    for (codec, at_4, at_28) in [(Codec::Bdi, 314, 314), (Codec::Fpc, 375, 375)] {
        let page = page_of([0; 64], plain(), 3);
        let sizes = PageSizes::of(codec, &page);
        let least = SizeRow {
            order: Some(0),
            exceptions: 3,
            encoded: at_4,
        };
        let kept = SizeRow {
            order: Some(2),
            exceptions: 3,
            encoded: at_28,
        };
        assert_eq!(rt; sizes.row(codec, sizes.plan()), least);
        assert_eq!(rt; sizes.row(codec, packed(2, 28, 3)), kept);
        assert_eq!(rt;
            PageSizes::of_zeros().row(codec, PagePlan::Zero),
            SizeRow::ZEROS
        );
        assert_eq!(rt; sizes.row(codec, PagePlan::Raw), SizeRow::PLAIN);
    }
}

#[test]
fn rows_of_rising_lines(rt: HostRuntime) {
    let page = page_of(rising(0x0001_0000, 4), plain(), 7);
    let sizes = PageSizes::of(Codec::Bdi, &page);
    for (target, exceptions, encoded) in [(24, 7, 57 * 23 + 7 * 64), (20, 64, 4096)] {
        let row = SizeRow {
            order: Some(2),
            exceptions,
            encoded,
        };
        assert_eq!(rt; sizes.row(Codec::Bdi, packed(2, target, exceptions)), row);
    }
}

/// Seven plain lines, and 57 whose encodings have 23 bytes: these are exceptions where their slots have 20.
#[test]
fn rows_in_slots_of_two_lengths(rt: HostRuntime) {
    let page = page_of(rising(0x0001_0000, 4), plain(), 7);
    let sizes = PageSizes::of(Codec::Bdi, &page);
    for (at, exceptions, encoded) in [
        (0, 7, 57 * 23 + 7 * 64),
        (3, 7, 57 * 23 + 7 * 64),
        (20, 20, 44 * 23 + 20 * 64),
        (64, 64, 4096),
    ] {
        let row = SizeRow {
            order: Some(2),
            exceptions,
            encoded,
        };
        assert_eq!(rt; sizes.row_in_slots(Codec::Bdi, 2, 20, 24, at), row);
    }
}

#[test]
fn sizes_of_zeros(rt: HostRuntime) {
    for codec in [Codec::Bdi, Codec::Fpc] {
        let zeros = PageSizes::of_zeros();
        assert_eq!(rt; zeros, PageSizes::of(codec, &[[0; 64]; 64]));
        assert_eq!(rt; zeros.plan(), PagePlan::Zero);
    }
}
