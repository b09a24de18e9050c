// Reports as lines and as JSON.
use super::note;
use crate::{Counts, End, Report, Settled, to_json, write_text};
use hier_types::{Failed, Geometry, L1Counts, L2Counts, NoSpace, PageCounts, PageNo, Sink, Totals};
use std::test::Fail;

const GEOMETRY: Geometry = Geometry {
    base: 16,
    pages: 4096,
};

const COUNTS: Counts = Counts {
    l1: L1Counts {
        hits: 2,
        misses: 1,
        write_backs: 0,
    },
    l2: L2Counts {
        reads: 1,
        read_hits: 0,
        writes: 0,
        write_hits: 0,
    },
    pages: PageCounts {
        reads: 1,
        writes: 0,
        meta_hits: 0,
        meta_misses: 1,
        mover_turns: 0,
        tidy_turns: 0,
    },
    cleaner_turns: 0,
};

const TOTALS: Totals = Totals {
    zero: 4095,
    c512: 1,
    c1024: 0,
    c2048: 0,
    c4096: 0,
    exceptions: 1,
    encoded: 190,
    blocks: 512,
};

/// A run of three instructions that exits with status 3.
const EXIT_THREE: Report = Report {
    end: End::Exit { status: 3 },
    retired: 3,
    counts: COUNTS,
    settled: Settled::Done(TOTALS),
};

/// The same run where its ninth page finds no block at the end.
const REFUSED: Report = Report {
    end: End::Exit { status: 3 },
    retired: 3,
    counts: COUNTS,
    settled: Settled::Space(NoSpace {
        page: PageNo(8),
        order: 0,
    }),
};

const LINES: [&str; 14] = [
    "end exit 3\n",
    "retired 3\n",
    "l1 2 1 0\n",
    "l2 1 0 0 0\n",
    "pages 1 0\n",
    "meta 0 1\n",
    "turns 0 0\n",
    "tidy 0\n",
    "settle done\n",
    "classes 1 0 0 0\n",
    "exceptions 1\n",
    "encoded 190\n",
    "blocks 512\n",
    "ratio 800\n",
];

#[test]
fn a_report_has_fourteen_lines(rt: HostRuntime) -> Result<(), Fail> {
    let alloc = rt.alloc();
    let mut note = note(alloc, Vec::new(alloc))?;
    assert_eq!(rt; write_text(&EXIT_THREE, &GEOMETRY, &mut note), Ok(()));
    let mut text = Vec::new(alloc);
    for line in &LINES {
        text.extend_from_slice(line.as_bytes())?;
    }
    assert_eq!(rt; note.bytes(), text.as_slice());
    Ok(())
}

/// Each call fails in turn, without a byte. The call after it, which is listed too, is the test's.
#[test]
fn no_line_follows_a_call_that_failed(rt: HostRuntime) -> Result<(), Fail> {
    let alloc = rt.alloc();
    let mut text = Vec::new(alloc);
    for call in 0..14u64 {
        let mut note = note(alloc, vec![in alloc; (call, 0), (call + 1, 0)]?)?;
        assert_eq!(rt; write_text(&EXIT_THREE, &GEOMETRY, &mut note), Err(Failed));
        assert_eq!(rt; note.write(b"."), Err(Failed));
        assert_eq!(rt; note.bytes(), text.as_slice());
        text.extend_from_slice(LINES[call as usize].as_bytes())?;
    }
    Ok(())
}

#[test]
fn a_refused_settling_has_no_totals(rt: HostRuntime) -> Result<(), Fail> {
    let alloc = rt.alloc();
    let mut note = note(alloc, Vec::new(alloc))?;
    assert_eq!(rt; write_text(&REFUSED, &GEOMETRY, &mut note), Ok(()));
    assert!(rt;
        note.bytes()
            .ends_with(b"\ntidy 0\nsettle space 00018000 0\n")
    );
    Ok(())
}

#[test]
fn a_report_is_one_object(rt: HostRuntime) -> Result<(), Fail> {
    let alloc = rt.alloc();
    let done =
        "{\"blocks\":512,\"classes\":[1,0,0,0],\"encoded\":190,\"end\":\"exit 3\",\"exceptions\":1,\
        \"l1\":[2,1,0],\"l2\":[1,0,0,0],\"meta\":[0,1],\"pages\":[1,0],\"ratio\":800,\"retired\":3,\
        \"settle\":\"done\",\"tidy\":0,\"turns\":[0,0]}\n";
    let refused =
        "{\"end\":\"exit 3\",\"l1\":[2,1,0],\"l2\":[1,0,0,0],\"meta\":[0,1],\"pages\":[1,0],\
        \"retired\":3,\"settle\":\"space 00018000 0\",\"tidy\":0,\"turns\":[0,0]}\n";
    assert_eq!(rt;
        to_json(alloc, &EXIT_THREE, &GEOMETRY)?.as_slice(),
        done.as_bytes()
    );
    assert_eq!(rt;
        to_json(alloc, &REFUSED, &GEOMETRY)?.as_slice(),
        refused.as_bytes()
    );
    Ok(())
}
