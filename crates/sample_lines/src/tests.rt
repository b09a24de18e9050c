use super::*;

// The first, the second and the last word of a line.
fn words_of(line: &[u8; 64]) -> [[u8; 4]; 3] {
    [
        [line[0], line[1], line[2], line[3]],
        [line[4], line[5], line[6], line[7]],
        [line[60], line[61], line[62], line[63]],
    ]
}

#[test]
fn words_of_lines(rt: HostRuntime) {
    assert_eq!(rt;
        words_of(&rising(0x0001_0000, 4)),
        [[0, 0, 1, 0], [4, 0, 1, 0], [0x3c, 0, 1, 0]]
    );
    let words = [
        [0x67, 0x45, 0x23, 0x01],
        [0xce, 0x8a, 0x46, 0x02],
        [0x70, 0x56, 0x34, 0x12],
    ];
    assert_eq!(rt; words_of(&plain()), words);
}
