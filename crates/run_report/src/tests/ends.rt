// The line of each end, and the addresses of refused pages.
use super::note;
use crate::{End, hex_digit, write_end};
use elf_image::{ImageFault, ImageKind};
use hier_types::{Failed, Geometry, NoSpace, PageNo, SettingName, Sink};
use rv_core::Trap;
use std::test::Fail;
use trace_reader::{TraceFault, TraceKind};

const TRAP: End = End::Trap(Trap {
    cause: 12,
    pc: 0x1_0abc,
    value: 0xffff_fff7,
});

const SHORT: End = End::BadImage {
    fault: ImageFault {
        kind: ImageKind::Short,
        header: None,
    },
};

const TABLE: End = End::BadImage {
    fault: ImageFault {
        kind: ImageKind::HeaderTable,
        header: Some(65_535),
    },
};

const LAST_ROW: End = End::BadTrace {
    fault: TraceFault {
        line: u64::MAX,
        kind: TraceKind::Fields,
    },
};

const SPACE: End = End::Space {
    at: 0x1_8000,
    order: 0,
    free: [0, 2, 0, 4_294_967_295],
};

#[test]
fn each_end_has_its_line(rt: HostRuntime) -> Result<(), Fail> {
    let alloc = rt.alloc();
    for (end, line) in [
        (End::Done, "end done\n"),
        (End::Usage, "end usage: hiersim COMMAND FILE [options]\n"),
        (
            End::Setting {
                name: SettingName::L2Ways,
            },
            "end bad setting l2-ways\n",
        ),
        (LAST_ROW, "end bad trace 18446744073709551615 Fields\n"),
        (End::Exit { status: 0 }, "end exit 0\n"),
        (
            End::Exit {
                status: 4_294_967_295,
            },
            "end exit 4294967295\n",
        ),
        (End::FileFault, "end file failed\n"),
        (End::TooLong, "end file too long\n"),
        (SHORT, "end bad image Short -\n"),
        (TABLE, "end bad image HeaderTable 65535\n"),
        (TRAP, "end trap 12 00010abc fffffff7\n"),
        (End::Budget, "end budget\n"),
        (SPACE, "end space 00018000 0 free 0 2 0 4294967295\n"),
        (
            End::NoRoom {
                at: 0x1_0000,
                order: 3,
            },
            "end noroom 00010000 3\n",
        ),
        (End::InFault, "end input failed\n"),
        (End::OutFault, "end output failed\n"),
        (End::NoMemory, "end no memory\n"),
    ] {
        prove!(end != End::NoteFault);
        let mut note = note(alloc, Vec::new(alloc))?;
        assert_eq!(rt; write_end(&end, None, &mut note), Ok(()));
        assert_eq!(rt; note.bytes(), line.as_bytes());
    }
    Ok(())
}

#[test]
fn a_number_has_the_second_line(rt: HostRuntime) -> Result<(), Fail> {
    let alloc = rt.alloc();
    for (retired, text) in [
        (0, "end budget\nretired 0\n"),
        (3, "end budget\nretired 3\n"),
        (u64::MAX, "end budget\nretired 18446744073709551615\n"),
    ] {
        let mut note = note(alloc, Vec::new(alloc))?;
        assert_eq!(rt; write_end(&End::Budget, Some(retired), &mut note), Ok(()));
        assert_eq!(rt; note.bytes(), text.as_bytes());
    }
    Ok(())
}

/// The first call of the note fails, or the second one. No call is made after it: the next one, which is listed too,
/// is the test's.
#[test]
fn nothing_follows_a_call_that_failed(rt: HostRuntime) -> Result<(), Fail> {
    let alloc = rt.alloc();
    for (call, text) in [(0, "end b."), (1, "end budget\nretir.")] {
        let mut note = note(alloc, vec![in alloc; (call, 5), (call + 1, 1)]?)?;
        assert_eq!(rt; write_end(&End::Budget, Some(3), &mut note), Err(Failed));
        assert_eq!(rt; note.write(b".."), Err(Failed));
        assert_eq!(rt; note.bytes(), text.as_bytes());
    }
    Ok(())
}

#[test]
fn refused_pages_have_addresses(rt: HostRuntime) -> Result<(), Fail> {
    let geometry = Geometry { base: 16, pages: 9 };
    let refusal = NoSpace {
        page: PageNo(8),
        order: 0,
    };
    assert_eq!(rt;
        End::space(geometry, refusal, [0, 2, 0, 4_294_967_295]),
        SPACE
    );
    assert_eq!(rt;
        End::no_room(geometry, refusal),
        End::NoRoom {
            at: 0x1_8000,
            order: 0
        }
    );
    Ok(())
}

#[test]
fn a_digit_is_that_of_four_bits(rt: HostRuntime) -> Result<(), Fail> {
    for (low, digit) in [(0, b'9'), (4, b'a'), (8, b'0'), (28, b'f')] {
        assert_eq!(rt; hex_digit(0xf000_00a9, low), digit);
    }
    Ok(())
}
