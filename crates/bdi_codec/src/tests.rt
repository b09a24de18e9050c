use super::*;
use std::process::Abort;

fn line_of(words: [u32; 16]) -> [u8; 64] {
    let mut line = [0; 64];
    for place in 0..16usize {
        let [a, b, c, d] = words[place].to_le_bytes();
        line[4 * place] = a;
        line[4 * place + 1] = b;
        line[4 * place + 2] = c;
        line[4 * place + 3] = d;
    }
    line
}

fn rising(first: u32, step: u32) -> [u32; 16] {
    let mut words = [first; 16];
    for place in 1..16usize {
        words[place] = words[place - 1].wrapping_add(step);
    }
    words
}

fn twice(words: [u32; 8]) -> [u32; 16] {
    let mut both = [0; 16];
    for place in 0..16usize {
        both[place] = words[place % 8];
    }
    both
}

fn assert_coded(rt: &impl Abort, words: [u32; 16], row: u8, mask: u32, payload: &[u8]) {
    let line = line_of(words);
    let coded = bdi_encode(&line);
    assert_eq!(rt; bdi_row(&line), row);
    assert_eq!(rt; coded.row, row);
    assert_eq!(rt; coded.mask, mask);
    assert_eq!(rt; coded.payload.as_slice(), payload);
    assert_eq!(rt; bdi_decode(row, mask, payload), Some(line));
}

#[test]
fn table_of_rows(rt: HostRuntime) {
    let rows = [
        (1, 0),
        (8, 0),
        (16, 1),
        (24, 1),
        (40, 1),
        (20, 2),
        (36, 2),
        (34, 4),
    ];
    for row in 0..8u8 {
        let (size, mask) = rows[row as usize];
        assert_eq!(rt; row_size(row), size, "of row {row}");
        assert_eq!(rt; mask_bytes(row), mask, "of row {row}");
    }
    assert_eq!(rt; row_size(15), 64);
    assert_eq!(rt; mask_bytes(15), 0);
}

#[test]
fn zeros(rt: HostRuntime) {
    assert_coded(&rt, [0; 16], 0, 0, &[0]);
}

#[test]
fn repeated_value(rt: HostRuntime) {
    let (low, high) = (0x5566_7788, 0x1122_3344);
    let words = twice([low, high, low, high, low, high, low, high]);
    assert_coded(
        &rt,
        words,
        1,
        0,
        &[0x88, 0x77, 0x66, 0x55, 0x44, 0x33, 0x22, 0x11],
    );
}

#[test]
fn rising_words(rt: HostRuntime) {
    let payload = [
        0x00, 0x00, 0x01, 0x00, 0x00, 0x04, 0x08, 0x0c, 0x10, 0x14, 0x18, 0x1c, 0x20, 0x24, 0x28,
        0x2c, 0x30, 0x34, 0x38, 0x3c,
    ];
    assert_coded(&rt, rising(0x0001_0000, 4), 5, 0xffff, &payload);
}

#[test]
fn difference_at_the_edge_of_a_delta(rt: HostRuntime) {
    let mut words = [0x1000; 16];
    words[14] = 0x107f;
    let one_byte = [
        0x00, 0x10, 0x00, 0x00, 0x00, 0x10, 0x00, 0x00, 0x00, 0x00, 0x00, 0x00, 0x00, 0x00, 0x00,
        0x7f,
    ];
    assert_coded(&rt, words, 2, 0xff, &one_byte);
    words[14] = 0x1080;
    let two_bytes = [
        0x00, 0x10, 0x00, 0x00, 0x00, 0x10, 0x00, 0x00, 0x00, 0x00, 0x00, 0x00, 0x00, 0x00, 0x00,
        0x00, 0x00, 0x00, 0x00, 0x00, 0x00, 0x00, 0x80, 0x00,
    ];
    assert_coded(&rt, words, 3, 0xff, &two_bytes);
}

#[test]
fn difference_that_wraps_around(rt: HostRuntime) {
    let mut words = [0x7fff_fff0; 16];
    words[15] = 0x8000_0010;
    let payload = [
        0xf0, 0xff, 0xff, 0x7f, 0x00, 0x00, 0x00, 0x00, 0x00, 0x00, 0x00, 0x00, 0x00, 0x00, 0x00,
        0x00, 0x00, 0x00, 0x00, 0x20,
    ];
    assert_coded(&rt, words, 5, 0xffff, &payload);
}

#[test]
fn line_that_no_row_shortens(rt: HostRuntime) {
    let words = rising(0x0123_4567, 0x0123_4567);
    assert_coded(&rt, words, 15, 0, &line_of(words));
}

// The example lines of the paper, of eight words, each twice: narrow values, near pointers, and pointers
// among narrow values, whose differences take more than two signed bytes.
#[test]
fn lines_of_the_paper(rt: HostRuntime) {
    let narrow = twice([0, 0xb, 3, 1, 4, 0, 3, 4]);
    let small_deltas = [
        0x00, 0x00, 0x00, 0x00, 0x00, 0x0b, 0x03, 0x01, 0x04, 0x00, 0x03, 0x04, 0x00, 0x0b, 0x03,
        0x01, 0x04, 0x00, 0x03, 0x04,
    ];
    assert_coded(&rt, narrow, 5, 0, &small_deltas);
    let near_deltas = [
        0xc0, 0x39, 0x40, 0xc0, 0x00, 0x08, 0x10, 0x18, 0x20, 0x28, 0x30, 0x38, 0x40, 0x48, 0x50,
        0x58, 0x60, 0x68, 0x70, 0x78,
    ];
    assert_coded(&rt, rising(0xc040_39c0, 8), 5, 0xffff, &near_deltas);
    let words = twice([0, 0x09a4_0178, 0xb, 1, 0x09a4_a838, 0xa, 0xb, 0x09a4_c2f0]);
    assert_coded(&rt, words, 15, 0, &line_of(words));
}

#[test]
fn both_kinds_of_delta(rt: HostRuntime) {
    let words = twice([0, 0x09a4_0178, 0xb, 1, 0x09a4_0838, 0xa, 0xb, 0x09a4_32f0]);
    let payload = [
        0x78, 0x01, 0xa4, 0x09, 0x00, 0x00, 0x00, 0x00, 0x0b, 0x00, 0x01, 0x00, 0xc0, 0x06, 0x0a,
        0x00, 0x0b, 0x00, 0x78, 0x31, 0x00, 0x00, 0x00, 0x00, 0x0b, 0x00, 0x01, 0x00, 0xc0, 0x06,
        0x0a, 0x00, 0x0b, 0x00, 0x78, 0x31,
    ];
    assert_coded(&rt, words, 6, 0x9292, &payload);
}

#[test]
fn nothing_is_said(rt: HostRuntime) {
    let bytes = [0; 64];
    assert_eq!(rt; bdi_decode(0, 0, &[1]), None, "zeros with another byte");
    for (row, mask, payload) in [
        (0, 0, &bytes[..2]),
        (0, 1, &bytes[..1]),
        (1, 1, &bytes[..8]),
        (1, 0, &bytes[..7]),
        (2, 0x100, &bytes[..16]),
        (2, 0xff, &bytes[..15]),
        (5, 0x1_0000, &bytes[..20]),
        (7, 0, &bytes[..35]),
        (8, 0, &bytes[..0]),
        (15, 1, &bytes[..]),
        (15, 0, &bytes[..63]),
    ] {
        assert_eq!(rt;
            bdi_decode(row, mask, payload),
            None,
            "row {row}, mask {mask}"
        );
    }
}
