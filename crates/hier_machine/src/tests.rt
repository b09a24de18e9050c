use super::*;
use elf_image::read_image;
use hier_types::{
    Access, Beat, BeatWord, BytesSource, Codec, Geometry, Line, NoSpace, NullSink, PageNo, Settings,
};
use line_codec::stored_size;
use page_slots::{PlaceKind, PlaceRow};
use run_report::{End, Settled};
use std::alloc::Global;
use std::test::Fail;

/// A plain program at 00010000 that counts in x5 for ever: `addi x5, x5, 1` and `jal x0, -4`.
const COUNTING: [u8; 92] = [
    0x7f, b'E', b'L', b'F', 1, 1, 1, 0, 0, 0, 0, 0, 0, 0, 0, 0, 2, 0, 243, 0, 1, 0, 0, 0, 0, 0, 1,
    0, 52, 0, 0, 0, 0, 0, 0, 0, 0, 0, 0, 0, 52, 0, 32, 0, 1, 0, 0, 0, 0, 0, 0, 0, 1, 0, 0, 0, 84,
    0, 0, 0, 0, 0, 1, 0, 0, 0, 0, 0, 8, 0, 0, 0, 8, 0, 0, 0, 5, 0, 0, 0, 4, 0, 0, 0, 0x93, 0x82,
    0x12, 0x00, 0x6f, 0xf0, 0xdf, 0xff,
];

/// A plain program at 00010000 that counts in x5 for ever, and stores each number to two lines of the next page:
/// `lui x6, 17`, `addi x5, x5, 1`, `sw x5, 0(x6)`, `sw x5, 64(x6)` and `jal x0, -12`.
const STORING: [u8; 104] = [
    0x7f, b'E', b'L', b'F', 1, 1, 1, 0, 0, 0, 0, 0, 0, 0, 0, 0, 2, 0, 243, 0, 1, 0, 0, 0, 0, 0, 1,
    0, 52, 0, 0, 0, 0, 0, 0, 0, 0, 0, 0, 0, 52, 0, 32, 0, 1, 0, 0, 0, 0, 0, 0, 0, 1, 0, 0, 0, 84,
    0, 0, 0, 0, 0, 1, 0, 0, 0, 0, 0, 20, 0, 0, 0, 20, 0, 0, 0, 5, 0, 0, 0, 4, 0, 0, 0, 0x37, 0x13,
    0x01, 0x00, 0x93, 0x82, 0x12, 0x00, 0x23, 0x20, 0x53, 0x00, 0x23, 0x20, 0x53, 0x04, 0x6f, 0xf0,
    0x5f, 0xff,
];

ghost use Rattle.std.specs.Prelude.{◌≡◌, ◌+◌, ◌<◌, ◌≤◌, ◌^◌, false, IfOk};
ghost use Rattle.hier_types.specs.Settings.{AreWithinRules};
ghost use Rattle.rv_core.specs.Accesses.{IsAccess};

/// The default settings, but with these pages, frames, beats and budget.
fn sized(pages: u32, frames: u32, beats: &[Beat], budget: u64) -> Result<Settings, Fail>
    requires some_pages { 1 ≤ pages }
    requires most_pages { pages ≤ 65536 }
    requires some_frames { 1 ≤ frames }
    requires most_frames { frames ≤ 65536 }
    requires budget { budget ≤ 10 ^ 15 }
    ensures rules { IfOk result AreWithinRules }
    ensures pages { IfOk result (λ settings. settings.geometry.pages ≡ pages) }
    ensures base { IfOk result (λ settings. settings.geometry.base ≡ 16) }
{
    Ok(Settings {
        geometry: Geometry { base: 16, pages },
        frames,
        budget,
        beats: BeatWord::new(beats).ok_or("no word")?,
        ..Settings::default()
    })
}

/// The program, opened with these settings.
fn opened(alloc: Global, program: &[u8], settings: &Settings) -> Result<Machine, Fail>
    requires { AreWithinRules settings.now }
    ensures { IfOk result (λ machine. (machine.ended ≡ false) × (machine.guest.retired ≡ 0) × (machine.memory.span.pages ≡ settings.now.geometry.pages)) }
{
    let mut file = Vec::new(alloc);
    file.extend_from_slice(program)?;
    Ok(open_file(alloc, file, settings).ok().ok_or("no machine")?)
}

/// The program that counts, opened with these settings.
fn counting(alloc: Global, settings: &Settings) -> Result<Machine, Fail>
    requires { AreWithinRules settings.now }
    ensures { IfOk result (λ machine. (machine.ended ≡ false) × (machine.guest.retired ≡ 0) × (machine.memory.span.pages ≡ settings.now.geometry.pages)) }
{
    opened(alloc, &COUNTING, settings)
}

#[test]
fn a_machine_begins_with_its_image(rt: HostRuntime) -> Result<(), Fail> {
    let settings = sized(4096, 4096, &[Beat::Hart], 9)?;
    let machine = counting(rt.alloc(), &settings)?;
    assert_eq!(rt; machine.regs().pc, 0x1_0000);
    assert_eq!(rt; machine.regs().x[2], 0x100_ffc0);
    assert_eq!(rt; machine.retired(), 0);
    assert!(rt; !machine.ended());
    let mut page = [7; 4096];
    machine.view_page(PageNo(0), &mut page);
    assert_eq!(rt;
        &page[..10],
        [0x93, 0x82, 0x12, 0x00, 0x6f, 0xf0, 0xdf, 0xff, 0, 0].as_slice()
    );
    machine.view_page(PageNo(4095), &mut page);
    assert_eq!(rt; page, [0; 4096]);
    Ok(())
}

#[test]
fn an_empty_machine_has_zeros(rt: HostRuntime) -> Result<(), Fail> {
    let settings = sized(4, 3, &[Beat::Hart], 9)?;
    let machine = Machine::open_empty(rt.alloc(), &settings)
        .ok()
        .ok_or("no machine")?;
    assert_eq!(rt; machine.retired(), 0);
    assert!(rt; !machine.ended());
    assert_eq!(rt; machine.pages().free(3), 3);
    let mut page = [7; 4096];
    machine.view_page(PageNo(3), &mut page);
    assert_eq!(rt; page, [0; 4096]);
    Ok(())
}

#[test]
fn beats_of_the_hart_alone_retire(rt: HostRuntime) -> Result<(), Fail> {
    let alloc = rt.alloc();
    let settings = sized(4, 4, &[Beat::Hart], 9)?;
    let mut machine = counting(alloc, &settings)?;
    let mut input = BytesSource::new(Vec::new(alloc), Vec::new(alloc));
    assert_eq!(rt; machine.beat(Beat::Mover, &mut input, &mut NullSink), None);
    assert_eq!(rt; machine.retired(), 0);
    assert_eq!(rt;
        machine.beat(Beat::Cleaner, &mut input, &mut NullSink),
        None
    );
    assert_eq!(rt; machine.retired(), 0);
    assert_eq!(rt; machine.beat(Beat::Hart, &mut input, &mut NullSink), None);
    assert_eq!(rt; machine.retired(), 1);
    assert_eq!(rt; machine.regs().pc, 0x1_0004);
    Ok(())
}

#[test]
fn budgets_end_runs_and_words_change_none(rt: HostRuntime) -> Result<(), Fail> {
    let alloc = rt.alloc();
    let words: [&[Beat]; 3] = [
        &[Beat::Hart],
        &[Beat::Mover, Beat::Hart],
        &[Beat::Cleaner, Beat::Hart, Beat::Hart, Beat::Mover],
    ];
    for word in words {
        for (budget, count) in [(0, 0), (1, 1), (2, 1), (3, 2), (1000, 500)] {
            let settings = sized(4, 1, word, budget)?;
            let mut machine = counting(alloc, &settings)?;
            let mut input = BytesSource::new(Vec::new(alloc), Vec::new(alloc));
            assert_eq!(rt; machine.run(&mut input, &mut NullSink), MachineEnd::Budget);
            assert!(rt; machine.ended());
            assert_eq!(rt; machine.retired(), budget);
            assert_eq!(rt; machine.regs().x[5], count, "budget {budget}");
        }
    }
    Ok(())
}

/// What an access gives, or nothing where it is refused.
fn value_of(machine: &mut Machine, asked: &Access) -> Option<u32>
    requires access { IsAccess machine.old.memory.span asked.now }
    requires room { machine.old.guest.retired < 9 }
    ensures span { machine.new.memory.span ≡ machine.old.memory.span }
    ensures retired { machine.new.guest.retired ≤ machine.old.guest.retired + 1 }
{
    machine.beat_access(asked).ok()
}

#[test]
fn accesses_over_zeros_are_counted(rt: HostRuntime) -> Result<(), Fail> {
    let settings = sized(4, 4, &[Beat::Hart], 9)?;
    let mut machine = Machine::open_empty(rt.alloc(), &settings)
        .ok()
        .ok_or("no machine")?;
    let half = Access::Store {
        at: 0x1_1006,
        width: 2,
        value: 0xffff_8283,
    };
    let word = Access::Load {
        at: 0x1_1004,
        width: 4,
    };
    let byte = Access::Load {
        at: 0x1_1007,
        width: 1,
    };
    assert_eq!(rt; value_of(&mut machine, &half), Some(0));
    assert_eq!(rt; value_of(&mut machine, &word), Some(0x8283_0000));
    assert_eq!(rt; value_of(&mut machine, &byte), Some(0x82));
    assert_eq!(rt; machine.retired(), 3);
    Ok(())
}

/// One frame has room for the program's page and not for two pages of noise.
#[test]
fn images_without_room_are_refused(rt: HostRuntime) -> Result<(), Fail> {
    let alloc = rt.alloc();
    let mut file = Vec::new(alloc);
    file.extend_from_slice(&COUNTING[..68])?;
    file.extend_from_slice(&[0, 0x20, 0, 0, 0, 0x20, 0, 0, 5, 0, 0, 0, 4, 0, 0, 0])?;
    let mut noise: u32 = 1;
    for _ in 0..0x2000u32 {
        noise = noise.wrapping_mul(1_664_525).wrapping_add(1_013_904_223);
        file.push((noise >> 24) as u8)?;
    }
    let settings = sized(4, 1, &[Beat::Hart], 9)?;
    let image = read_image(alloc, file, settings.geometry)
        .ok()
        .ok_or("no program")?;
    let refusal = NoSpace {
        page: PageNo(1),
        order: 3,
    };
    assert_eq!(rt;
        Machine::open(alloc, &settings, &image).err(),
        Some(OpenFault::NoRoom(refusal))
    );
    Ok(())
}

#[test]
fn what_was_stored_settles_and_stays(rt: HostRuntime) -> Result<(), Fail> {
    let alloc = rt.alloc();
    let settings = sized(4, 4, &[Beat::Hart], 11)?;
    let mut machine = opened(alloc, &STORING, &settings)?;
    let mut input = BytesSource::new(Vec::new(alloc), Vec::new(alloc));
    assert_eq!(rt; machine.run(&mut input, &mut NullSink), MachineEnd::Budget);
    let mut before = [7; 4096];
    machine.view_page(PageNo(1), &mut before);
    assert_eq!(rt; (before[0], before[64]), (3, 2));
    assert!(rt; machine.settle().is_ok());
    let mut after = [7; 4096];
    machine.view_page(PageNo(1), &mut after);
    assert_eq!(rt; after, before);
    for page in 0..4u32 {
        assert!(rt; page_suits(&machine, PageNo(page)));
    }
    Ok(())
}

/// The place of a line is the one that its stored size asks for: none for a line of zeros in a page without a block, else
/// its slot where that holds it, and else a chunk.
fn suits(line: &Line, row: Option<PlaceRow>) -> bool {
    let Some(row) = row else {
        return *line == [0; 64];
    };
    match stored_size(Codec::Bdi, line) {
        Some(size) if row.kind == PlaceKind::Slot => row.used == size as u16,
        _ => row.kind != PlaceKind::Slot && row.used == 64,
    }
}

/// Each line of a page stands in the memory as it reads in the machine.
fn page_suits(machine: &Machine, page: PageNo) -> bool
    requires { page.0 < machine.now.memory.span.pages }
{
    let mut bytes = [0; 4096];
    machine.view_page(page, &mut bytes);
    for index in 0..64u8 {
        let mut line = [0; 64];
        let at = 64 * index as usize;
        line.copy_from_slice(&bytes[at..at + 64]);
        if !suits(&line, machine.pages().layout_row(page, index + 2)) {
            return false;
        }
    }
    true
}

/// Takes what may go to another thread.
fn take_sendable<T: Send>(_value: &T) {}

#[test]
fn machines_may_go_to_other_threads(rt: HostRuntime) -> Result<(), Fail> {
    let settings = sized(4, 4, &[Beat::Hart], 9)?;
    let machine = counting(rt.alloc(), &settings)?;
    take_sendable(&machine);
    Ok(())
}

#[test]
fn turns_are_those_before_the_used_up_budget(rt: HostRuntime) -> Result<(), Fail> {
    let alloc = rt.alloc();
    let (hart, mover, cleaner) = (Beat::Hart, Beat::Mover, Beat::Cleaner);
    let late: &[Beat] = &[mover, hart];
    let long: &[Beat] = &[hart, mover, mover, mover, cleaner];
    for (word, budget, mover_turns, cleaner_turns) in [
        (late, 0, 0, 0),
        (long, 2, 3, 1),
        (long, 1, 0, 0),
    ] {
        let settings = sized(4, 1, word, budget)?;
        let mut machine = counting(alloc, &settings)?;
        let mut input = BytesSource::new(Vec::new(alloc), Vec::new(alloc));
        let report = machine.run_to_report(&mut input, &mut NullSink);
        assert_eq!(rt; (report.end, report.retired), (End::Budget, budget));
        assert_eq!(rt; report.counts.pages.mover_turns, mover_turns);
        assert_eq!(rt; report.counts.cleaner_turns, cleaner_turns);
        let Settled::Done(totals) = report.settled else {
            return Err("not settled".into());
        };
        assert_eq!(rt; (totals.zero, totals.c512, totals.blocks), (3, 1, 512));
    }
    Ok(())
}

/// The program's page leaves a block of each order but the greatest.
#[test]
fn refusals_are_told_with_what_is_free(rt: HostRuntime) -> Result<(), Fail> {
    let settings = sized(4, 1, &[Beat::Hart], 9)?;
    let machine = counting(rt.alloc(), &settings)?;
    let refusal = NoSpace {
        page: PageNo(1),
        order: 3,
    };
    assert_eq!(rt;
        machine.told(MachineEnd::Space(refusal)),
        End::Space {
            at: 0x1_1000,
            order: 3,
            free: [1, 1, 1, 0]
        }
    );
    Ok(())
}
