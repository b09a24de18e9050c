use super::*;
use std::process::Abort;
use std::test::Fail;

const PATTERN_RUN: [u32; 16] = [
    0,
    0,
    0,
    0,
    0,
    0,
    0,
    0,
    0,
    0x7,
    0xffff_fff8,
    0x8,
    0x0050_0000,
    0xff80,
    0xabab_abab,
    0x1234_5678,
];

const HALF_ZEROS: [u32; 16] = [
    0,
    0,
    0,
    0,
    0,
    0,
    0,
    0,
    0x1234_5678,
    0x1234_5678,
    0x1234_5678,
    0x1234_5678,
    0x1234_5678,
    0x1234_5678,
    0x1234_5678,
    0x1234_5678,
];

// Fourteen words of 35 bits each, then two words.
fn fourteen_then(first: u32, second: u32) -> [u32; 16] {
    let mut words = [0x1234_5678; 16];
    words[14] = first;
    words[15] = second;
    words
}

fn check_size(rt: &impl Abort, words: &[u32; 16], bits: u16, size: u8) {
    let line = line_of(words);
    assert_eq!(rt; fpc_bits(&line), bits);
    assert_eq!(rt; fpc_size(&line), size);
    assert_eq!(rt; fpc_encode(&line).is_none(), size == 64);
}

#[test]
fn sizes_of_lines(rt: HostRuntime) {
    check_size(&rt, &[0; 16], 12, 2);
    check_size(&rt, &[1; 16], 112, 14);
    check_size(&rt, &PATTERN_RUN, 121, 16);
    check_size(&rt, &HALF_ZEROS, 286, 36);
    check_size(&rt, &fourteen_then(1, 1), 504, 63);
    check_size(&rt, &fourteen_then(1, 0x10), 508, 64);
    check_size(&rt, &[0x1234_5678; 16], 560, 64);
}

#[test]
fn bytes_of_each_pattern(rt: HostRuntime) -> Result<(), Fail> {
    let line = line_of(&PATTERN_RUN);
    let bytes = fpc_encode(&line).ok_or("no encoding")?;
    let expected = [
        0x38, 0x90, 0x0b, 0x0a, 0x81, 0x50, 0x00, 0x05, 0x04, 0xf0, 0xea, 0xf1, 0xac, 0x68, 0x24,
        0x00,
    ];
    assert_eq!(rt; bytes.as_slice(), expected.as_slice());
    assert_eq!(rt; fpc_decode(bytes.as_slice()), Some(line));
    Ok(())
}

#[test]
fn bytes_with_no_meaning(rt: HostRuntime) {
    assert_eq!(rt; fpc_decode(&[]), None, "no bits");
    assert_eq!(rt; fpc_decode(&[0x38]), None, "eight words and no more");
    assert_eq!(rt;
        fpc_decode(&[0x38, 0x8c, 0x00]),
        None,
        "runs of eight, seven and two"
    );
}

#[test]
fn bytes_that_mean_zeros(rt: HostRuntime) {
    assert_eq!(rt;
        fpc_decode(&[0x38, 0x0e]),
        Some([0; 64]),
        "two runs of eight"
    );
    assert_eq!(rt;
        fpc_decode(&[0x38, 0xfe, 0xff]),
        Some([0; 64]),
        "and bits behind them"
    );
    assert_eq!(rt;
        fpc_decode(&[0x38, 0x0c, 0x00]),
        Some([0; 64]),
        "runs of eight, seven and one"
    );
}
