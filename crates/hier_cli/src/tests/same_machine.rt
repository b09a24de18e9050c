// Reports of the program, against those of a machine that the test opens, and takes round the word of beats itself.
ghost use Rattle.std.specs.Prelude.{◌≡◌, ◌≢◌, ◌<◌, ◌≤◌, ◌+◌, ◌%◌, IfOk};
ghost use Rattle.hier_types.specs.Settings.{AreWithinRules};
ghost use Rattle.hier_types.specs.Span.{Has};
ghost use Rattle.run_report.specs.declared.end.End.TheVariants.{NoteFault};

use super::traces::{OUT_AND_BACK, SMALL_CACHES, TWELVE_PAGES, trace, trace_words};
use super::*;
use crate::notice::{Notice, write_notice};
use hier_machine::{Machine, MachineEnd, open_file};
use hier_types::{Access, Geometry, NoSpace, NullSink, PageNo, Settings};
use run_report::write_place;
use rv_asm::demo_program;
use sim_words::read_words;

/// The settings that words ask for.
fn settings_of(alloc: Global, words: &[&str]) -> Result<Settings, Fail>
    ensures { IfOk result AreWithinRules }
{
    let mut owned = Vec::new(alloc);
    for word in words {
        owned.push(String::from_str(alloc, word)?)?;
    }
    match read_words(alloc, &owned) {
        Ok(request) => Ok(request.settings),
        Err(_) => Err("no request".into()),
    }
}

/// Makes the beats of the word, over and over, up to an end or the used-up budget. Each round has a beat of the hart.
fn go_round(machine: &mut Machine, settings: &Settings, input: &mut BytesSource) -> MachineEnd {
    for _ in 0..settings.budget {
        for place in 0..settings.beats.len() {
            if machine.ended() || machine.retired() >= settings.budget {
                return MachineEnd::Budget;
            }
            let beat = settings.beats.beat_at(place);
            if let Some(end) = machine.beat(beat, input, &mut NullSink) {
                return end;
            }
        }
    }
    MachineEnd::Budget
}

/// The text of the report of a machine that ends so.
fn note_of(
    alloc: Global,
    machine: &mut Machine,
    settings: &Settings,
    end: End,
) -> Result<Vec<u8>, Fail>
    requires { end ≢ NoteFault }
{
    let notice = Notice::Reported(machine.report(end));
    let mut note = BytesSink::new(alloc, ROOM, Vec::new(alloc))
        .ok()
        .ok_or("no memory")?;
    write_notice(alloc, notice, settings, &mut note);
    Ok(Vec::from_slice(alloc, note.bytes())?)
}

/// The note of a run of a file that the test makes itself.
fn own_run(alloc: Global, file: Vec<u8>, words: &[&str]) -> Result<Vec<u8>, Fail> {
    let settings = settings_of(alloc, words)?;
    let mut machine = open_file(alloc, file, &settings).ok().ok_or("no machine")?;
    let mut input = BytesSource::new(Vec::from_slice(alloc, &[1, 2])?, Vec::new(alloc));
    let end = go_round(&mut machine, &settings, &mut input);
    let told = machine.told(end);
    note_of(alloc, &mut machine, &settings, told)
}

/// One access of four bytes, a load or a store of 1.
fn word(machine: &mut Machine, at: u32, stores: bool) -> Result<(), NoSpace>
    requires aligned { at % 4 ≡ 0 }
    requires has { Has machine.old.memory.span at }
    requires room { machine.old.guest.retired < 12 }
    ensures span { machine.new.memory.span ≡ machine.old.memory.span }
    ensures retired { machine.new.guest.retired ≤ machine.old.guest.retired + 1 }
{
    let access = if stores {
        Access::Store {
            at,
            width: 4,
            value: 1,
        }
    } else {
        Access::Load { at, width: 4 }
    };
    match machine.beat_access(&access) {
        Ok(_) => Ok(()),
        Err(refusal) => Err(refusal),
    }
}

/// A store to the first line of each of twelve pages.
fn twelve_pages(machine: &mut Machine) -> Result<(), NoSpace>
    requires span { machine.old.memory.span ≡ record { base = 16; pages = 16 } }
    requires new { machine.old.guest.retired ≡ 0 }
{
    word(machine, 0x1_0000, true)?;
    word(machine, 0x1_1000, true)?;
    word(machine, 0x1_2000, true)?;
    word(machine, 0x1_3000, true)?;
    word(machine, 0x1_4000, true)?;
    word(machine, 0x1_5000, true)?;
    word(machine, 0x1_6000, true)?;
    word(machine, 0x1_7000, true)?;
    word(machine, 0x1_8000, true)?;
    word(machine, 0x1_9000, true)?;
    word(machine, 0x1_a000, true)?;
    word(machine, 0x1_b000, true)
}

/// A store, and loads of as many other lines as put its line out of both levels, before it is loaded again.
fn out_and_back(machine: &mut Machine) -> Result<(), NoSpace>
    requires span { machine.old.memory.span ≡ record { base = 16; pages = 16 } }
    requires new { machine.old.guest.retired ≡ 0 }
{
    word(machine, 0x1_0000, true)?;
    word(machine, 0x1_1000, false)?;
    word(machine, 0x1_2000, false)?;
    word(machine, 0x1_3000, false)?;
    word(machine, 0x1_0000, false)?;
    word(machine, 0x1_0040, false)
}

/// The note of a trace that the test makes itself: of twelve pages, or out and back.
fn own_trace(alloc: Global, words: &[&str], stores: bool) -> Result<Vec<u8>, Fail> {
    let settings = settings_of(alloc, words)?;
    let Geometry { base, pages } = settings.geometry;
    if base != 16 || pages != 16 {
        return Err("other pages".into());
    }
    let mut machine = Machine::open_empty(alloc, &settings)
        .ok()
        .ok_or("no machine")?;
    let made = if stores {
        twelve_pages(&mut machine)
    } else {
        out_and_back(&mut machine)
    };
    let end = match made {
        Ok(()) => End::Done,
        Err(refusal) => machine.space(refusal),
    };
    note_of(alloc, &mut machine, &settings, end)
}

#[test]
fn runs_are_of_one_machine(rt: HostRuntime) -> Result<(), Fail> {
    let alloc = rt.alloc();
    for (beats, budget) in [
        ("h", "1000"),
        ("hm", "1000"),
        ("hmmmc", "1000"),
        ("hmmmc", "2"),
        ("mcmh", "0"),
    ] {
        let words = ["run", "a", "--beats", beats, "--budget", budget];
        let file = write_elf(alloc, &EXIT_THREE).ok().ok_or("no memory")?;
        let own = own_run(alloc, file, &words)?;
        let left = run_words(&rt, alloc, &words, &EXIT_THREE, Failing::nowhere(alloc))?;
        assert_eq!(rt; left.note.as_slice(), own.as_slice());
    }
    Ok(())
}

/// The program that is generated from 7, by its number and by its file.
#[test]
fn the_demo_is_of_one_machine(rt: HostRuntime) -> Result<(), Fail> {
    let alloc = rt.alloc();
    let file = demo_program(alloc, 7).ok().ok_or("no memory")?;
    let own = own_run(alloc, file, &["run", "a"])?;
    let demo = run_words(&rt, alloc, &["demo", "7"], &[], Failing::nowhere(alloc))?;
    assert_eq!(rt; demo.note.as_slice(), own.as_slice());
    let generated = run_words(&rt, alloc, &["gen", "7"], &[], Failing::nowhere(alloc))?;
    let run = run_on(
        &rt,
        alloc,
        &["run", "a"],
        generated.output,
        Failing::nowhere(alloc),
    )?;
    assert_eq!(rt; run.note.as_slice(), own.as_slice());
    Ok(())
}

/// The places that a machine's pages have.
fn places_of(alloc: Global, machine: &Machine, geometry: Geometry) -> Result<Vec<u8>, Fail> {
    let mut out = BytesSink::new(alloc, ROOM, Vec::new(alloc))
        .ok()
        .ok_or("no memory")?;
    for number in 0..geometry.pages {
        let page = PageNo(number);
        let Some(base) = machine.pages().base_of(page) else {
            continue;
        };
        for index in 0..66u8 {
            if let Some(place) = machine.pages().layout_row(page, index) {
                write_place(geometry, page, base, &place, &mut out)
                    .ok()
                    .ok_or("no room")?;
            }
        }
    }
    Ok(Vec::from_slice(alloc, out.bytes())?)
}

/// The layout that the program generated from 7 leaves, whose 65 pages are written down from small caches.
#[test]
fn the_layout_is_of_one_machine(rt: HostRuntime) -> Result<(), Fail> {
    let alloc = rt.alloc();
    let words = ["layout", "a", "--l1-sets", "4", "--l2-sets", "16"];
    let settings = settings_of(alloc, &words)?;
    let file = demo_program(alloc, 7).ok().ok_or("no memory")?;
    let mut machine = open_file(alloc, file, &settings).ok().ok_or("no machine")?;
    let mut input = BytesSource::new(Vec::from_slice(alloc, &[1, 2])?, Vec::new(alloc));
    go_round(&mut machine, &settings, &mut input);
    let own = places_of(alloc, &machine, settings.geometry)?;
    let file = demo_program(alloc, 7).ok().ok_or("no memory")?;
    let left = run_on(&rt, alloc, &words, file, Failing::nowhere(alloc))?;
    let rows = own.iter().filter(|byte| **byte == b'\n').count();
    assert!(rt; rows > 4_000);
    assert_eq!(rt; left.output.as_slice(), own.as_slice());
    Ok(())
}

/// Twelve pages of which three find no room, and a line that is put out and comes back.
#[test]
fn traces_are_of_one_machine(rt: HostRuntime) -> Result<(), Fail> {
    let alloc = rt.alloc();
    for (rows, frames, stores) in [(TWELVE_PAGES, "1", true), (OUT_AND_BACK, "16", false)] {
        let words = trace_words(alloc, frames, &SMALL_CACHES)?;
        let own = own_trace(alloc, &words, stores)?;
        let left = trace(
            &rt,
            alloc,
            rows,
            frames,
            &SMALL_CACHES,
            Failing::nowhere(alloc),
        )?;
        assert_eq!(rt; left.note.as_slice(), own.as_slice());
    }
    Ok(())
}
