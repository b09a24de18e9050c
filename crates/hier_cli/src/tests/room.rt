// Caches of many shapes, and memories without room.
use super::*;

/// Stores a word that no other page has to the first line of page after page, from 00020000 on.
const STORE_TO_PAGES: [u32; 7] = [
    0x0002_0437, // lui x8, 0x20
    0x0000_12b7, // lui x5, 1
    0x1234_5337, // lui x6, 0x12345
    0x0064_2023, // sw x6, 0(x8)
    0x0064_2223, // sw x6, 4(x8)
    0x0054_0433, // add x8, x8, x5
    0xff5f_f06f, // jal x0, -12
];

/// Fills 16 KiB from 00020000 on with the multiples of a number, adds them up, and exits with the sum.
const FILL_AND_ADD: [u32; 15] = [
    0x0002_0437, // lui x8, 0x20
    0x0002_44b7, // lui x9, 0x24
    0x0123_4337, // lui x6, 0x1234
    0x5673_0313, // addi x6, x6, 0x567
    0x0062_82b3, // add x5, x5, x6
    0x0054_2023, // sw x5, 0(x8)
    0x0044_0413, // addi x8, x8, 4
    0xfe94_1ae3, // bne x8, x9, -12
    0xffc4_0413, // addi x8, x8, -4
    0x0004_2383, // lw x7, 0(x8)
    0x0075_0533, // add x10, x10, x7
    0x0002_0eb7, // lui x29, 0x20
    0xffd4_18e3, // bne x8, x29, -16
    0x05d0_0893, // addi x17, x0, 93
    ECALL,
];

/// Under each shape of the caches output, end and memory are the same.
#[test]
fn shapes_change_nothing(rt: HostRuntime) -> Result<(), Fail> {
    let alloc = rt.alloc();
    let nowhere = || Failing::nowhere(alloc);
    let flat = run_words(&rt, alloc, &["flat", "a"], &FILL_AND_ADD, nowhere())?;
    let mut image = Vec::new(alloc);
    for (l1_sets, l1_ways, l2_sets, l2_ways, codec) in [
        ("1", "1", "1", "1", "bdi"),
        ("1", "2", "1", "1", "fpc"),
        ("1", "16", "2", "1", "bdi"),
        ("2", "2", "4", "2", "fpc"),
        ("4", "1", "8", "4", "bdi"),
        ("8", "8", "1", "16", "fpc"),
        ("16", "3", "16", "5", "bdi"),
        ("32", "2", "64", "1", "fpc"),
        ("64", "8", "128", "2", "bdi"),
        ("128", "1", "512", "8", "fpc"),
        ("256", "2", "4096", "1", "bdi"),
        ("1024", "16", "4096", "16", "fpc"),
    ] {
        for command in ["run", "image"] {
            let words = [
                command,
                "a",
                "--l1-sets",
                l1_sets,
                "--l1-ways",
                l1_ways,
                "--l2-sets",
                l2_sets,
                "--l2-ways",
                l2_ways,
                "--codec",
                codec,
                "--pages",
                "24",
                "--frames",
                "24",
            ];
            let left = run_words(&rt, alloc, &words, &FILL_AND_ADD, nowhere())?;
            assert_eq!(rt; left.status.end, flat.status.end);
            assert!(rt; left.note.starts_with(&flat.note));
            if image.is_empty() {
                image = left.output;
            } else if command == "image" {
                assert_eq!(rt; left.output.as_slice(), image.as_slice());
            }
        }
    }
    assert_eq!(rt; image.len(), 5 * 4100);
    Ok(())
}

/// One frame holds eight pages with a block of 512 bytes: the program's page and seven others.
#[test]
fn pages_without_room_end_runs(rt: HostRuntime) -> Result<(), Fail> {
    let alloc = rt.alloc();
    let words = [
        "run",
        "a",
        "--frames",
        "1",
        "--l1-sets",
        "1",
        "--l1-ways",
        "2",
        "--l2-sets",
        "1",
        "--l2-ways",
        "1",
        "--beats",
        "h",
    ];
    let left = run_words(&rt, alloc, &words, &STORE_TO_PAGES, Failing::nowhere(alloc))?;
    assert_eq!(rt; left.status.code, 208);
    assert!(rt;
        left.note
            .starts_with(b"end space 00027000 0 free 0 0 0 0\nretired ")
    );
    Ok(())
}
