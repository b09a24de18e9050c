// Traces, over the memory hierarchy.
use super::*;
use trace_reader::{TraceFault, TraceKind};

/// A word, and loads of its low half and of its highest byte.
const PARTS_OF_A_WORD: &str = "S 10000 4 12345678\nL 10000 2\nL 10003 1\n";

/// A store to the first line of each of twelve pages.
pub(super) const TWELVE_PAGES: &str =
    "S 10000 4 1\nS 11000 4 1\nS 12000 4 1\nS 13000 4 1\nS 14000 4 1\nS 15000 4 1\n\
S 16000 4 1\nS 17000 4 1\nS 18000 4 1\nS 19000 4 1\nS 1a000 4 1\nS 1b000 4 1\n";

const NOTE_WITHOUT_ROOM: &str =
    "end space 00018000 0 free 0 0 0 0\nretired 11\nl1 0 11 9\nl2 11 0 9 1\npages 11 8\nmeta 0 0\nturns 0 0\ntidy 0\n\
settle space 00018000 0\n";

/// A store, and loads of as many other lines as put its line out of both levels, before it is loaded again.
pub(super) const OUT_AND_BACK: &str =
    "S 10000 4 1\nL 11000 4\nL 12000 4\nL 13000 4\nL 10000 4\nL 10040 4\n";

const NOTE_OUT_AND_BACK: &str =
    "end done\nretired 6\nl1 0 6 1\nl2 6 0 1 1\npages 6 1\nmeta 1 1\nturns 0 0\ntidy 0\n\
settle done\nclasses 1 0 0 0\nexceptions 1\nencoded 190\nblocks 512\nratio 800\n";

/// Caches of two lines and of one set, and no turn of the mover or the cleaner.
pub(super) const SMALL_CACHES: [&str; 10] = [
    "--l1-sets",
    "1",
    "--l1-ways",
    "2",
    "--l2-sets",
    "1",
    "--l2-ways",
    "1",
    "--beats",
    "h",
];

/// The words of `trace a` over sixteen pages in so many frames.
pub(super) fn trace_words<'a>(
    alloc: Global,
    frames: &'a str,
    options: &[&'a str],
) -> Result<Vec<&'a str>, Fail> {
    let mut words = Vec::new(alloc);
    for word in ["trace", "a", "--pages", "16", "--frames", frames] {
        words.push(word)?;
    }
    for option in options {
        words.push(*option)?;
    }
    Ok(words)
}

/// Runs `trace a` on rows, over sixteen pages in so many frames.
pub(super) fn trace<R: Threads + Sync>(
    rt: &R,
    alloc: Global,
    rows: &str,
    frames: &str,
    options: &[&str],
    failing: Failing,
) -> Result<Left, Fail> {
    let words = trace_words(alloc, frames, options)?;
    let file = Vec::from_slice(alloc, rows.as_bytes())?;
    run_on(rt, alloc, &words, file, failing)
}

/// Each load prints its value, and a trace with a fault does nothing.
#[test]
fn values_of_loads(rt: HostRuntime) -> Result<(), Fail> {
    let alloc = rt.alloc();
    let fault = TraceFault {
        line: 2,
        kind: TraceKind::Align,
    };
    for (rows, end, output, note) in [
        ("", End::Done, "", "end done\nretired 0\n"),
        (
            PARTS_OF_A_WORD,
            End::Done,
            "5678\n12\n",
            "end done\nretired 3\n",
        ),
        (
            "S 10006 2 aBc\nL 10004 4\n",
            End::Done,
            "0abc0000\n",
            "end done\nretired 2\n",
        ),
        (
            "S 10000 4 12345678\nL 10001 4\nL 10003 1\n",
            End::BadTrace { fault },
            "",
            "end bad trace 2 Align\n",
        ),
    ] {
        let left = trace(&rt, alloc, rows, "16", &[], Failing::nowhere(alloc))?;
        left.check(&rt, end, output.as_bytes(), note.as_bytes());
        assert_eq!(rt; left.input.as_slice(), [1, 2].as_slice());
    }
    Ok(())
}

/// One frame holds eight pages with a block of 512 bytes, and the caches hold the lines of three stores more.
#[test]
fn pages_without_room_end_traces(rt: HostRuntime) -> Result<(), Fail> {
    let alloc = rt.alloc();
    let left = trace(
        &rt,
        alloc,
        TWELVE_PAGES,
        "1",
        &SMALL_CACHES,
        Failing::nowhere(alloc),
    )?;
    assert_eq!(rt; left.status.code, 208);
    assert_eq!(rt; left.note.as_slice(), NOTE_WITHOUT_ROOM.as_bytes());
    let left = trace(
        &rt,
        alloc,
        TWELVE_PAGES,
        "9",
        &SMALL_CACHES,
        Failing::nowhere(alloc),
    )?;
    left.check(&rt, End::Done, &[], b"end done\nretired 12\n");
    Ok(())
}

#[test]
fn lines_come_back(rt: HostRuntime) -> Result<(), Fail> {
    let alloc = rt.alloc();
    let left = trace(
        &rt,
        alloc,
        OUT_AND_BACK,
        "16",
        &SMALL_CACHES,
        Failing::nowhere(alloc),
    )?;
    let output = b"00000000\n00000000\n00000000\n00000001\n00000000\n";
    left.check(&rt, End::Done, output, NOTE_OUT_AND_BACK.as_bytes());
    assert_eq!(rt; left.note.len(), NOTE_OUT_AND_BACK.len());
    Ok(())
}

/// The budget is tested before each access. Beats of others are passed over.
#[test]
fn budgets_end_traces(rt: HostRuntime) -> Result<(), Fail> {
    let alloc = rt.alloc();
    for (budget, beats, end, output, note) in [
        ("0", "h", End::Budget, "", "end budget\nretired 0\n"),
        ("2", "h", End::Budget, "5678\n", "end budget\nretired 2\n"),
        (
            "2",
            "mhcm",
            End::Budget,
            "5678\n",
            "end budget\nretired 2\n",
        ),
        ("3", "h", End::Done, "5678\n12\n", "end done\nretired 3\n"),
        ("4", "cmh", End::Done, "5678\n12\n", "end done\nretired 3\n"),
    ] {
        let options = ["--budget", budget, "--beats", beats];
        let left = trace(
            &rt,
            alloc,
            PARTS_OF_A_WORD,
            "16",
            &options,
            Failing::nowhere(alloc),
        )?;
        left.check(&rt, end, output.as_bytes(), note.as_bytes());
    }
    Ok(())
}

/// A turn behind the last access, or at the used-up budget, is not made.
#[test]
fn turns_are_those_before_the_end(rt: HostRuntime) -> Result<(), Fail> {
    let alloc = rt.alloc();
    for (rows, budget, beats, turns) in [
        (PARTS_OF_A_WORD, "1000", "hmc", "2 2"),
        (PARTS_OF_A_WORD, "3", "hmc", "2 2"),
        (PARTS_OF_A_WORD, "2", "hmc", "1 1"),
        ("", "1000", "mch", "0 0"),
    ] {
        let options = ["--budget", budget, "--beats", beats];
        let left = trace(&rt, alloc, rows, "16", &options, Failing::nowhere(alloc))?;
        let line = format!(in alloc; "\nturns {turns}\n")?;
        let bytes = line.as_bytes();
        assert!(rt; left.note.windows(bytes.len()).any(|part| part == bytes));
    }
    Ok(())
}

#[test]
fn outputs_that_fail_end_traces(rt: HostRuntime) -> Result<(), Fail> {
    let alloc = rt.alloc();
    let mut failing = Failing::nowhere(alloc);
    failing.output.push((1, 1))?;
    let left = trace(&rt, alloc, PARTS_OF_A_WORD, "16", &[], failing)?;
    let note = b"end output failed\nretired 3\n";
    left.check(&rt, End::OutFault, b"5678\n1", note);
    assert_eq!(rt; left.status.code, 211);
    Ok(())
}
