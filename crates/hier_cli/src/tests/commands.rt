// Each command, on its happy path and on words that are refused.
use super::*;
use hier_types::SettingName;
use rv_asm::demo_program;

/// The output of the program that is generated from 7: the fold of its words, by the definition of its format.
const FOLD_OF_SEVEN: [u8; 4] = [0x74, 0xd0, 0xb1, 0x55];

/// What is told of the program that exits with 3, before the turns of the mover and the cleaner, and after them.
const BEFORE_TURNS: &str =
    "end exit 3\nretired 3\nl1 2 1 0\nl2 1 0 0 0\npages 1 0\nmeta 0 1\nturns ";

const AFTER_TURNS: &str =
    "\ntidy 0\nsettle done\nclasses 1 0 0 0\nexceptions 1\nencoded 190\nblocks 512\nratio 800\n";

const JSON: &[u8] =
    b"{\"blocks\":512,\"classes\":[1,0,0,0],\"encoded\":190,\"end\":\"exit 3\",\"exceptions\":1,\"l1\":[2,1,0],\"l2\":[1,0,0,0],\"meta\":[0,1],\"pages\":[1,0],\"ratio\":800,\"retired\":3,\"settle\":\"done\",\"tidy\":0,\"turns\":[0,0]}\n";

/// The report with these turns.
fn report_with(alloc: Global, turns: &str) -> Result<String, Fail> {
    Ok(format!(in alloc; "{BEFORE_TURNS}{turns}{AFTER_TURNS}")?)
}

#[test]
fn reports(rt: HostRuntime) -> Result<(), Fail> {
    let alloc = rt.alloc();
    let text = report_with(alloc, "0 0")?;
    let cases: [(&[&str], &[u8]); 2] = [
        (&["run", "a"], text.as_bytes()),
        (&["run", "a", "--json"], JSON),
    ];
    for (words, note) in cases {
        let left = run_words(&rt, alloc, words, &EXIT_THREE, Failing::nowhere(alloc))?;
        left.check(&rt, End::Exit { status: 3 }, &[], note);
        assert_eq!(rt; (left.status.code, left.note.len()), (3, note.len()));
        assert_eq!(rt; left.input.as_slice(), [1, 2].as_slice());
    }
    Ok(())
}

/// Beats of the mover and the cleaner show in the line of the turns alone.
#[test]
fn words_of_beats(rt: HostRuntime) -> Result<(), Fail> {
    let alloc = rt.alloc();
    for (beats, turns) in [("h", "0 0"), ("hm", "2 0"), ("hmmmc", "6 2")] {
        let words = ["run", "a", "--beats", beats];
        let left = run_words(&rt, alloc, &words, &EXIT_THREE, Failing::nowhere(alloc))?;
        let report = report_with(alloc, turns)?;
        assert_eq!(rt; left.note.as_slice(), report.as_bytes());
    }
    Ok(())
}

/// Each call of the note that fails leaves the lines before it.
#[test]
fn notes_that_fail(rt: HostRuntime) -> Result<(), Fail> {
    let alloc = rt.alloc();
    let report = report_with(alloc, "0 0")?;
    for call in 0..14u64 {
        let mut failing = Failing::nowhere(alloc);
        failing.note.push((call, 0))?;
        let words = ["run", "a", "--pages", "1", "--frames", "1"];
        let left = run_words(&rt, alloc, &words, &EXIT_THREE, failing)?;
        assert_eq!(rt; (left.status.end, left.status.code), (End::NoteFault, 212));
        let lines = left.note.iter().filter(|byte| **byte == b'\n').count();
        assert_eq!(rt; lines as u64, call);
        assert!(rt; report.as_bytes().starts_with(&left.note));
    }
    Ok(())
}

/// The image is the one page of the program, behind its address, whether it ran or not.
#[test]
fn images(rt: HostRuntime) -> Result<(), Fail> {
    let alloc = rt.alloc();
    let cases: [(&[&str], &str); 2] = [
        (&["image", "a"], "end exit 3\nretired 3\n"),
        (&["image", "a", "--budget", "0"], "end budget\nretired 0\n"),
    ];
    for (words, note) in cases {
        let left = run_words(&rt, alloc, words, &EXIT_THREE, Failing::nowhere(alloc))?;
        assert_eq!(rt; left.output.len(), 4100);
        assert_eq!(rt;
            &left.output[..8],
            [0, 0, 1, 0, 0x13, 0x05, 0x30, 0].as_slice()
        );
        assert_eq!(rt; &left.output[16..4100], [0; 4084].as_slice());
        assert_eq!(rt; left.note.as_slice(), note.as_bytes());
    }
    Ok(())
}

#[test]
fn images_whose_output_fails(rt: HostRuntime) -> Result<(), Fail> {
    let alloc = rt.alloc();
    let mut failing = Failing::nowhere(alloc);
    failing.output.push((1, 7))?;
    let left = run_words(&rt, alloc, &["image", "a"], &EXIT_THREE, failing)?;
    assert_eq!(rt; (left.status.end, left.output.len()), (End::OutFault, 11));
    assert_eq!(rt;
        left.note.as_slice(),
        b"end output failed\nretired 3\n".as_slice()
    );
    Ok(())
}

/// The text of the layout of `EXIT_THREE`: the block, the metadata, the program's line in a chunk behind the slots, and
/// 63 lines of zeros in slots of four bytes.
fn layout_of_exit_three(alloc: Global) -> Result<String, Fail> {
    let mut text = String::from_str(
        alloc,
        "00010000 -- b 00000000 512 512\n00010000 -- m 00000000 64 64\n00010000 00 x 00000140 64 64\n",
    )?;
    for line in 1..64u32 {
        let at = 64 + 4 * line;
        let row = format!(in alloc; "00010000 {line:02} s {at:08x} 4 2\n")?;
        text.push_str(&row)?;
    }
    Ok(text)
}

/// The layout is that of the one page of the program, whether it ran or not.
#[test]
fn layouts(rt: HostRuntime) -> Result<(), Fail> {
    let alloc = rt.alloc();
    let text = layout_of_exit_three(alloc)?;
    let cases: [(&[&str], &str); 2] = [
        (&["layout", "a"], "end exit 3\nretired 3\n"),
        (&["layout", "a", "--budget", "0"], "end budget\nretired 0\n"),
    ];
    for (words, note) in cases {
        let left = run_words(&rt, alloc, words, &EXIT_THREE, Failing::nowhere(alloc))?;
        assert_eq!(rt; left.output.as_slice(), text.as_bytes());
        assert_eq!(rt; left.note.as_slice(), note.as_bytes());
    }
    Ok(())
}

/// The third row fails behind its first seven bytes, and none follows it.
#[test]
fn layouts_whose_output_fails(rt: HostRuntime) -> Result<(), Fail> {
    let alloc = rt.alloc();
    let mut failing = Failing::nowhere(alloc);
    failing.output.push((2, 7))?;
    let left = run_words(&rt, alloc, &["layout", "a"], &EXIT_THREE, failing)?;
    let text = layout_of_exit_three(alloc)?;
    assert_eq!(rt; (left.status.end, left.output.len()), (End::OutFault, 67));
    assert!(rt; text.as_bytes().starts_with(&left.output));
    assert_eq!(rt;
        left.note.as_slice(),
        b"end output failed\nretired 3\n".as_slice()
    );
    Ok(())
}

/// The generated program fills and reads 256 KiB, and folds them to a word.
#[test]
fn generated_programs(rt: HostRuntime) -> Result<(), Fail> {
    let alloc = rt.alloc();
    let demo = run_words(&rt, alloc, &["demo", "7"], &[], Failing::nowhere(alloc))?;
    let end = End::Exit { status: 0 };
    demo.check(&rt, end, &FOLD_OF_SEVEN, b"end exit 0\nretired 851987\n");
    let turns = b"\nturns 60856 60856\n".as_slice();
    assert!(rt; demo.note.windows(turns.len()).any(|part| part == turns));
    let file = run_words(&rt, alloc, &["gen", "7"], &[], Failing::nowhere(alloc))?;
    let expected = demo_program(alloc, 7).ok().ok_or("no memory")?;
    file.check(&rt, End::Done, &expected, b"end done\n");
    assert_eq!(rt; file.status.code, 0);
    let run = run_on(
        &rt,
        alloc,
        &["run", "a"],
        file.output,
        Failing::nowhere(alloc),
    )?;
    assert_eq!(rt; run.note.as_slice(), demo.note.as_slice());
    Ok(())
}

/// A page with one line that no codec shortens, and a part of a page of zeros.
#[test]
fn surveys(rt: HostRuntime) -> Result<(), Fail> {
    let alloc = rt.alloc();
    let mut bytes = Vec::from_slice(alloc, &[0; 4100])?;
    let mut noise = 1u32;
    for place in 0..64usize {
        noise = noise.wrapping_mul(1_664_525).wrapping_add(1_013_904_223);
        bytes[place] = (noise >> 24) as u8;
    }
    let text =
        b"pages 2\nzero 1\nclasses 1 0 0 0\nexceptions 1\nencoded 190\nblocks 512\nratio 800\n";
    let left = run_on(&rt, alloc, &["survey", "a"], bytes, Failing::nowhere(alloc))?;
    left.check(&rt, End::Done, text, b"end done\n");
    assert_eq!(rt; left.status.code, 0);
    let none = run_on(
        &rt,
        alloc,
        &["survey", "a"],
        Vec::new(alloc),
        Failing::nowhere(alloc),
    )?;
    let text = b"pages 0\nzero 0\nclasses 0 0 0 0\nexceptions 0\nencoded 0\nblocks 0\nratio 0\n";
    none.check(&rt, End::Done, text, b"end done\n");
    Ok(())
}

/// Words that ask for nothing that can be done: one line, and nothing read or printed.
#[test]
fn words_that_are_refused(rt: HostRuntime) -> Result<(), Fail> {
    let alloc = rt.alloc();
    let usage = (End::Usage, "end usage: hiersim COMMAND FILE [options]\n");
    let setting = |name| End::Setting { name };
    let cases: [(&[&str], (End, &str)); 9] = [
        (&[], usage),
        (&["run"], usage),
        (&["--help"], usage),
        (&["run", "a", "a"], usage),
        (
            &["walk", "a"],
            (setting(SettingName::Command), "end bad setting command\n"),
        ),
        (
            &["run", "a", "--l1-sets", "3"],
            (setting(SettingName::L1Sets), "end bad setting l1-sets\n"),
        ),
        (
            &["run", "a", "--base", "1048574", "--pages", "2"],
            (setting(SettingName::Pages), "end bad setting pages\n"),
        ),
        (
            &["run", "a", "--beats", "mmc"],
            (setting(SettingName::Beats), "end bad setting beats\n"),
        ),
        (&["run", "b"], (End::FileFault, "end file failed\n")),
    ];
    for (words, (end, note)) in cases {
        let left = run_words(&rt, alloc, words, &EXIT_THREE, Failing::nowhere(alloc))?;
        left.check(&rt, end, &[], note.as_bytes());
        assert_eq!(rt; left.note.len(), note.len());
        assert_eq!(rt; left.input.as_slice(), [1, 2].as_slice());
    }
    Ok(())
}
