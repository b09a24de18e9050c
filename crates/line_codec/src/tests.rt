use super::*;
use hier_types::Codec;
use sample_lines::{plain, rising};

fn line_of(words: [u32; 16]) -> [u8; 64] {
    let mut line = [0; 64];
    for place in 0..16usize {
        let [a, b, c, d] = words[place].to_le_bytes();
        line[4 * place] = a;
        line[4 * place + 1] = b;
        line[4 * place + 2] = c;
        line[4 * place + 3] = d;
    }
    line
}

fn all_but_one(word: u32, other: u32) -> [u8; 64] {
    let mut words = [word; 16];
    words[14] = other;
    line_of(words)
}

// Fourteen words of 35 bits each as frequent patterns, then two words.
fn fourteen_then(first: u32, second: u32) -> [u8; 64] {
    let mut words = [0x1234_5678; 16];
    words[14] = first;
    words[15] = second;
    line_of(words)
}

// A run of nine zeros, then words of each other pattern but the signed half.
fn pattern_run() -> [u8; 64] {
    let mut words = [0; 16];
    words[9] = 0x7;
    words[10] = 0xffff_fff8;
    words[11] = 0x8;
    words[12] = 0x0050_0000;
    words[13] = 0xff80;
    words[14] = 0xabab_abab;
    words[15] = 0x1234_5678;
    line_of(words)
}

// One element of eight bytes again and again.
fn repeated() -> [u8; 64] {
    let mut words = [0x5566_7788; 16];
    for place in 0..8usize {
        words[2 * place + 1] = 0x1122_3344;
    }
    line_of(words)
}

#[test]
fn sizes_under_base_delta_immediate(rt: HostRuntime) {
    for (line, bytes, stored) in [
        ([0; 64], 1, Some(2)),
        (repeated(), 8, Some(9)),
        (rising(0x0001_0000, 4), 20, Some(23)),
        (all_but_one(0x1000, 0x107f), 16, Some(18)),
        (all_but_one(0x1000, 0x1080), 24, Some(26)),
        (plain(), 64, None),
    ] {
        assert_eq!(rt; size(Codec::Bdi, &line), bytes);
        assert_eq!(rt; stored_size(Codec::Bdi, &line), stored);
    }
}

#[test]
fn sizes_under_frequent_patterns(rt: HostRuntime) {
    for (line, bytes, stored) in [
        ([0; 64], 2, Some(3)),
        (line_of([1; 16]), 14, Some(15)),
        (pattern_run(), 16, Some(17)),
        (fourteen_then(1, 1), 63, Some(64)),
        (fourteen_then(1, 0x10), 64, None),
        (line_of([0x1234_5678; 16]), 64, None),
    ] {
        assert_eq!(rt; size(Codec::Fpc, &line), bytes);
        assert_eq!(rt; stored_size(Codec::Fpc, &line), stored);
    }
}

#[test]
#[tactic(auto, using(crate::proofs::PayloadLemmas::says_line_of))]
fn payloads_and_their_forms(rt: HostRuntime) {
    let rising_words = rising(0x0001_0000, 4);
    let unshortened = plain();
    let mask = 0xffff;
    for (codec, line, form, bytes) in [
        (Codec::Bdi, [0; 64], Form::Deltas { row: 0, mask: 0 }, 1),
        (Codec::Bdi, repeated(), Form::Deltas { row: 1, mask: 0 }, 8),
        (Codec::Bdi, rising_words, Form::Deltas { row: 5, mask }, 20),
        (Codec::Bdi, unshortened, Form::Plain, 64),
        (Codec::Fpc, [0; 64], Form::Patterns, 2),
        (Codec::Fpc, repeated(), Form::Plain, 64),
        (Codec::Fpc, rising_words, Form::Patterns, 38),
        (Codec::Fpc, unshortened, Form::Plain, 64),
    ] {
        let packed = pack(codec, &line);
        assert_eq!(rt; packed.form, form);
        assert_eq!(rt; packed.payload.len(), bytes);
        assert_eq!(rt; unpack(packed.form, packed.payload.as_slice()), line);
    }
}

#[test]
fn zeros_in_a_slot(rt: HostRuntime) {
    let mut slot = [0xff; 2];
    assert!(rt; to_slot(Codec::Bdi, &[0; 64], &mut slot));
    assert_eq!(rt; slot, [0, 0]);
    assert_eq!(rt; from_slot(&[0, 0, 0xff, 0xff]), Some([0; 64]));
}

#[test]
fn rising_words_in_slots(rt: HostRuntime) {
    let line = rising(0x0001_0000, 4);
    let mut short = [0xff; 20];
    assert!(rt; !to_slot(Codec::Bdi, &line, &mut short));
    assert_eq!(rt; short, [0xff; 20]);
    let mut slot = [0xff; 24];
    assert!(rt; to_slot(Codec::Bdi, &line, &mut slot));
    let bytes = [
        0x05, 0x00, 0x00, 0x01, 0x00, 0x00, 0x04, 0x08, 0x0c, 0x10, 0x14, 0x18, 0x1c, 0x20, 0x24,
        0x28, 0x2c, 0x30, 0x34, 0x38, 0x3c, 0xff, 0xff, 0x00,
    ];
    assert_eq!(rt; used_size(&slot), 23);
    assert_eq!(rt; slot, bytes);
    assert_eq!(rt; from_slot(&slot), Some(line));
    assert_eq!(rt; from_slot(&slot[..23]), Some(line));
    assert_eq!(rt; from_slot(&slot[..22]), None);
}

#[test]
fn patterns_in_slots(rt: HostRuntime) {
    let line = pattern_run();
    let mut short = [0xff; 16];
    assert!(rt; !to_slot(Codec::Fpc, &line, &mut short));
    assert_eq!(rt; short, [0xff; 16]);
    let mut slot = [0xff; 18];
    assert!(rt; to_slot(Codec::Fpc, &line, &mut slot));
    let bytes = [
        0x08, 0x38, 0x90, 0x0b, 0x0a, 0x81, 0x50, 0x00, 0x05, 0x04, 0xf0, 0xea, 0xf1, 0xac, 0x68,
        0x24, 0x00, 0x00,
    ];
    assert_eq!(rt; used_size(&slot), 17);
    assert_eq!(rt; slot, bytes);
    assert_eq!(rt; from_slot(&slot), Some(line));
    assert_eq!(rt; from_slot(&slot[..17]), Some(line));
    assert_eq!(rt; from_slot(&slot[..16]), None);
}

#[test]
fn patterns_of_63_bytes_in_a_slot(rt: HostRuntime) {
    let line = fourteen_then(1, 1);
    let mut short = [0xff; 63];
    assert!(rt; !to_slot(Codec::Fpc, &line, &mut short));
    let mut slot = [0xff; 64];
    assert!(rt; to_slot(Codec::Fpc, &line, &mut slot));
    assert_eq!(rt; from_slot(&slot), Some(line));
}

#[test]
fn header_that_names_the_codec(rt: HostRuntime) {
    let mut slot = [0xff; 4];
    assert!(rt; to_slot(Codec::Bdi, &[0; 64], &mut slot));
    assert_eq!(rt; slot, [0, 0, 0, 0]);
    assert_eq!(rt; from_slot(&slot), Some([0; 64]));
    assert!(rt; to_slot(Codec::Fpc, &[0; 64], &mut slot));
    assert_eq!(rt; slot, [0x08, 0x38, 0x0e, 0x00]);
    assert_eq!(rt; from_slot(&slot), Some([0; 64]));
}

#[test]
fn line_that_no_slot_holds(rt: HostRuntime) {
    let line = plain();
    for codec in [Codec::Bdi, Codec::Fpc] {
        let mut slot = [0xff; 64];
        assert!(rt; !to_slot(codec, &line, &mut slot));
        assert_eq!(rt; slot, [0xff; 64]);
    }
}

#[test]
fn slots_that_say_nothing(rt: HostRuntime) {
    let slots: [&[u8]; 8] = [
        &[],
        &[0],
        &[0, 1],
        &[8],
        &[8, 0x38],
        &[8, 0x38, 0x8c, 0x00],
        &[9, 0, 0, 0],
        &[15; 65],
    ];
    for slot in slots {
        assert_eq!(rt; from_slot(slot), None);
    }
}
