// The guest over its memory, beat by beat.
ghost use Rattle.std.specs.Prelude.{◌≡◌, ◌*◌, ◌-◌, ◌^◌, ◌<◌, ◌≤◌, false, None, IfErr, IfOk, OnOk, length, take, drop};
ghost use Rattle.hier_types.specs.Settings.{AreWithinRules};
ghost use Rattle.hier_types.specs.Streams.{AreUntouched, FaultsStay, Streams, went};
ghost use Rattle.hier_types.specs.declared.beats.Beat.TheVariants.{Mover, Cleaner};
ghost use Rattle.hier_types.specs.declared.faults.NoSpace.{NoSpace as Refusal};
ghost use Rattle.page_store.specs.Crowds.{Crowded};
ghost use Rattle.page_store.specs.Store.{AreAtPlan, IsSound, sizing_of};
ghost use Rattle.rv_core.specs.Accesses.{IsAccess};
ghost use Rattle.rv_guest.specs.FollowsFlat.{FollowsFlat};
ghost use Rattle.rv_guest.specs.Start.{start_state};
ghost use Rattle.hier_machine.specs.Accesses.{AccessBeats};
ghost use Rattle.hier_machine.specs.Beats.{Beats, HartBeats};
ghost use Rattle.hier_machine.specs.FileRuns.{RunsToReport};
ghost use Rattle.hier_machine.specs.Lists.{ListsAccess, ListsBeats, ListsHart, lists_of};
ghost use Rattle.hier_machine.specs.Memory.{guest_bytes, store_of};
ghost use Rattle.hier_machine.specs.Placed.{IsOpenFault};
ghost use Rattle.hier_machine.specs.Reports.{Reports, counts_of};
ghost use Rattle.hier_machine.specs.Runs.{RunsAreOne, RunsMachine};
ghost use Rattle.hier_machine.specs.Settles.{ListsSettle, SettlesMachine};
ghost use Rattle.hier_machine.specs.Spaces.{AreFreeCounts, AreNoneFrom, IsEndOf, IsSpaceEnd};
ghost use Rattle.hier_machine.specs.Start.{Starts, StartsEmpty, asked_sizing, start_memory};
ghost use Rattle.hier_machine.specs.State.{guest_of_machine};
ghost use Rattle.hier_machine.specs.Words.{CountsAreAlike};
ghost use Rattle.run_report.specs.ReportLines.{HasBlocksIfDone};

use crate::ends::{OpenFault, end_of};
use crate::errands::{CleaningTurn, FlushSecond, MovingTurn, Through, Tidying, place_under};
use crate::page_view::view_page;
use beat_runs::{Runner, run};
use elf_image::Image;
use hier_types::{
    Access, Beat, BeatWord, Layer, NoMemory, NoSpace, PageNo, Port, Settings, Sink, Source,
};
use l1_cache::L1;
use l2_cache::L2;
use page_store::Pages;
use run_report::{Counts, End, Report, Settled};
use rv_core::{Regs, access};
use rv_guest::{Guest, MachineEnd};
use std::alloc::Global;
use std::marker::Model;

/// A program in its memory: two cache levels over pages in blocks.
#[derive(Drop)]
pub struct Machine {
    memory: L1<L2<Pages>>,
    guest: Guest,
    budget: u64,
    beats: BeatWord,
    cleaner_turns: u64,
    ended: bool,
}

impl Model for Machine {
    ghost use Rattle.rv_guest.specs.State.{state_of};
    ghost use Rattle.hier_machine.specs.Memory.{guest_bytes};
    ghost use Rattle.hier_machine.specs.State.{MachineState};

    ghost Value = { MachineState };

    ghost view = { λ m. record {
      memory = m.memory;
      guest = state_of m.guest (guest_bytes m.memory);
      budget = m.budget;
      beats = m.beats;
      cleaner_turns = m.cleaner_turns;
      ended = m.ended;
    } };
}

impl Machine {
    /// A machine that begins with the image: pc is its entry, x2 is 64 bytes below the span's end, and every other
    /// register is 0. The break is the image's end. No line is kept, and the pages of the image stand in the store.
    pub fn open(alloc: Global, settings: &Settings, image: &Image) -> Result<Self, OpenFault>
        requires same { image.now.span ≡ settings.now.geometry }
        requires rules { AreWithinRules settings.now }
        ensures ok { IfOk result (Starts settings.now image.now.file) }
        ensures err { IfErr result (IsOpenFault image.now (asked_sizing settings.now)) }
    {
        let Ok(mut machine) = Machine::over_zeros(alloc, settings, image.entry(), image.end())
        else {
            return Err(OpenFault::NoMemory);
        };
        if let Err(refusal) = place_under(&mut machine.memory, settings, image) {
            return Err(OpenFault::NoRoom(refusal));
        }
        Ok(machine)
    }

    /// A machine for a trace: its memory is zeros, and its guest makes no instruction.
    pub fn open_empty(alloc: Global, settings: &Settings) -> Result<Self, NoMemory>
        requires { AreWithinRules settings.now }
        ensures { IfOk result (StartsEmpty settings.now) }
    {
        let first = settings.geometry.first();
        Machine::over_zeros(alloc, settings, first, first)
    }

    /// A machine with all its memory, whose pages are zero. Its guest stands at an entry, with its break at an end.
    fn over_zeros(
        alloc: Global,
        settings: &Settings,
        entry: u32,
        end: u32,
    ) -> Result<Self, NoMemory>
        requires { AreWithinRules settings.now }
        ensures empty { IfOk result (StartsEmpty settings.now) }
        ensures guest { IfOk result (λ machine. machine.guest ≡ start_state settings.now.geometry entry end (guest_bytes machine.memory)) }
    {
        let beats = settings.beats.clone()?;
        let store = Pages::new(
            alloc,
            settings.geometry,
            settings.frames,
            settings.codec,
            settings.meta,
        )?;
        Ok(Machine {
            memory: levels_over(alloc, store, settings)?,
            guest: Guest::start(entry, end, &settings.geometry),
            budget: settings.budget,
            beats,
            cleaner_turns: 0,
            ended: false,
        })
    }

    /// The registers.
    pub fn regs(&self) -> &Regs
        ensures pc { result.now.pc ≡ self.now.guest.hart.pc }
        ensures x { result.now.x ≡ self.now.guest.hart.x }
    {
        &self.guest.regs
    }

    /// The end of a run that was refused a block: the page's address, the order, and the free blocks of each order.
    pub fn space(&self, refusal: NoSpace) -> End
        ensures { IsSpaceEnd self.now.memory.span (store_of self.now.memory) refusal result }
    {
        let free = free_counts(self.memory.below().below());
        End::space(self.memory.span(), refusal, free)
    }

    /// The memory of pages.
    pub fn pages(&self) -> &Pages
        ensures { result.now ≡ self.now.memory.below.below }
    {
        self.memory.below().below()
    }

    /// What both levels, the memory of pages and the turns of the cleaner have counted.
    pub fn counts(&self) -> Counts
        ensures counts { result ≡ counts_of self.now }
        ensures sound { IsSound (store_of self.now.memory) }
    {
        Counts {
            l1: self.memory.counts(),
            l2: self.memory.below().counts(),
            pages: self.pages().counts(),
            cleaner_turns: self.cleaner_turns,
        }
    }

    /// How many instructions retired, or accesses were made.
    pub fn retired(&self) -> u64
        ensures { result ≡ self.now.guest.retired }
    {
        self.guest.retired
    }

    /// Whether the run has ended.
    pub fn ended(&self) -> bool
        ensures { result ≡ self.now.ended }
    {
        self.ended
    }

    /// The guest's bytes of a page.
    pub fn view_page(&self, page: PageNo, into: &mut [u8; 4096])
        requires { page.0 < self.now.memory.span.pages }
        ensures { into.new ≡ take 4096 (drop (4096 * page.0) self.now.guest.hart.bytes) }
    {
        // With its span and its lines the memory tells that it has the page.
        let _span = self.memory.span();
        let _count = self.memory.lines();
        view_page(&self.memory, page, into);
    }

    /// One beat. The hart makes one instruction. The mover makes one turn of repacking, on the page where it stands. The
    /// cleaner writes one changed line of the second level down to the pages; where that is refused, the line stays
    /// changed, and the run goes on. A beat that answers an end ends the machine.
    pub fn beat<I: Source, O: Sink>(
        &mut self,
        beat: Beat,
        input: &mut I,
        out: &mut O,
    ) -> Option<MachineEnd>
        requires running { self.old.ended ≡ false }
        requires room { self.old.guest.retired < 2 ^ 64 - 1 }
        ensures beats { Beats beat self.old result self.new (went I.left I.faults O.written O.faults input.old input.new out.old out.new) }
        ensures lists { ListsBeats (sizing_of (store_of self.old.memory)) beat (lists_of self.old) result (lists_of self.new) (went I.left I.faults O.written O.faults input.old input.new out.old out.new) }
        ensures faults { FaultsStay (went I.left I.faults O.written O.faults input.old input.new out.old out.new) }
    {
        Runner::beat(self, beat, input, out)
    }

    /// The hart's beat of a trace: one access, which gives the value that it loads, or 0 for a store. It counts like an
    /// instruction, and touches one line.
    pub fn beat_access(&mut self, asked: &Access) -> Result<u32, NoSpace>
        requires access { IsAccess self.old.memory.span asked.now }
        requires room { self.old.guest.retired < 2 ^ 64 - 1 }
        ensures beats { AccessBeats self.old asked.now result self.new }
        ensures lists { ListsAccess (sizing_of (store_of self.old.memory)) (lists_of self.old) asked.now result (lists_of self.new) }
    {
        let value = access(&mut self.memory, asked)?;
        self.guest.retired += 1;
        Ok(value)
    }

    /// Writes every changed line down to the pages: those of the first level to the second, and then those of the second
    /// to the store. It stops at the first one that is refused; where none is, every page is then brought to its plan. No
    /// byte of the guest changes.
    pub fn settle(&mut self) -> Result<(), NoSpace>
        ensures settles { SettlesMachine self.old result self.new }
        ensures at_plan { OnOk result (AreAtPlan (store_of self.new.memory)) }
        ensures lists { ListsSettle (sizing_of (store_of self.old.memory)) (lists_of self.old) result (lists_of self.new) }
    {
        if let Err(refusal) = self.memory.flush() {
            return Err(refusal);
        }
        let mut flush = FlushSecond::new();
        self.memory.below_do(&mut flush);
        if let Err(refusal) = flush.answer {
            return Err(refusal);
        }
        self.memory.below_do(&mut Through { errand: Tidying });
        Ok(())
    }

    /// The report of a run or a trace that came to this end: its counts as they stand now, and then what the pages take
    /// once every changed line was written down to them.
    pub fn report(&mut self, end: End) -> Report
        ensures reports { Reports self.old end result self.new }
        ensures blocks { HasBlocksIfDone result.settled }
    {
        let retired = self.retired();
        let counts = self.counts();
        let settled = match self.settle() {
            Ok(()) => Settled::Done(self.pages().totals()),
            Err(refusal) => Settled::Space(refusal),
        };
        Report {
            end,
            retired,
            counts,
            settled,
        }
    }

    /// Makes the beats of the word from its first one on, over and over, until one ends the run or as many instructions
    /// have retired as the budget allows, which is tested before each beat.
    pub fn run<I: Source, O: Sink>(&mut self, input: &mut I, out: &mut O) -> MachineEnd
        requires running { self.old.ended ≡ false }
        requires within { self.old.guest.retired ≤ self.old.budget }
        ensures runs { RunsMachine self.old result self.new (went I.left I.faults O.written O.faults input.old input.new out.old out.new) }
        ensures follows { FollowsFlat (guest_of_machine self.old) self.old.budget self.old.guest result self.new.guest (went I.left I.faults O.written O.faults input.old input.new out.old out.new) }
        ensures faults { FaultsStay (went I.left I.faults O.written O.faults input.old input.new out.old out.new) }
    {
        let word = self.beats.clone().unwrap();
        let budget = self.budget;
        run(self, &word, budget, input, out)
    }

    /// The program's end for a run's: of a refused block it tells the page, the order and what is free now.
    pub fn told(&self, end: MachineEnd) -> End
        ensures told { IsEndOf self.now.memory.span (store_of self.now.memory) end result }
        ensures sound { IsSound (store_of self.now.memory) }
    {
        // With its counts the memory of pages tells that it is sound.
        let _counts = self.pages().counts();
        match end_of(end) {
            Ok(end) => end,
            Err(refusal) => self.space(refusal),
        }
    }

    /// Runs to an end, settles and reports.
    pub fn run_to_report<I: Source, O: Sink>(&mut self, input: &mut I, out: &mut O) -> Report
        requires running { self.old.ended ≡ false }
        requires within { self.old.guest.retired ≤ self.old.budget }
        ensures runs { RunsToReport self.old (went I.left I.faults O.written O.faults input.old input.new out.old out.new) result self.new }
        ensures blocks { HasBlocksIfDone result.settled }
        ensures faults { FaultsStay (went I.left I.faults O.written O.faults input.old input.new out.old out.new) }
    {
        let end = self.run(input, out);
        let told = self.told(end);
        self.report(told)
    }

    /// One instruction.
    fn hart_beat<I: Source, O: Sink>(&mut self, input: &mut I, out: &mut O) -> Option<MachineEnd>
        requires running { self.old.ended ≡ false }
        requires room { self.old.guest.retired < 2 ^ 64 - 1 }
        ensures beats { HartBeats self.old result self.new (went I.left I.faults O.written O.faults input.old input.new out.old out.new) }
        ensures lists { ListsHart (sizing_of (store_of self.old.memory)) (lists_of self.old) result (lists_of self.new) (went I.left I.faults O.written O.faults input.old input.new out.old out.new) }
        ensures faults { FaultsStay (went I.left I.faults O.written O.faults input.old input.new out.old out.new) }
    {
        let end = self.guest.beat(&mut self.memory, input, out);
        self.ended = end.is_some();
        end
    }

    /// One turn of the mover.
    fn move_beat(&mut self)
        ensures beats { (streams : Streams) → AreUntouched streams → Beats Mover self.old None self.new streams }
        ensures lists { (streams : Streams) → AreUntouched streams → ListsBeats (sizing_of (store_of self.old.memory)) Mover (lists_of self.old) None (lists_of self.new) streams }
    {
        self.memory.below_do(&mut Through { errand: MovingTurn });
    }

    /// One turn of the cleaner, which is counted.
    fn clean_beat(&mut self)
        ensures beats { (streams : Streams) → AreUntouched streams → Beats Cleaner self.old None self.new streams }
        ensures lists { (streams : Streams) → AreUntouched streams → ListsBeats (sizing_of (store_of self.old.memory)) Cleaner (lists_of self.old) None (lists_of self.new) streams }
    {
        self.memory.below_do(&mut CleaningTurn);
        self.cleaner_turns = self.cleaner_turns.saturating_add(1);
    }
}

impl Runner for Machine {
    ghost use Rattle.hier_machine.specs.Memory.{store_of};
    ghost use Rattle.hier_machine.specs.Runs.{MakesBeat, stands_at};

    type End = MachineEnd;

    ghost retired = { λ s. s.guest.retired };

    ghost ready = { λ s. s.ended ≡ false };

    ghost may = { λ s. (s.ended ≡ false) × (s.guest.retired < 2 ^ 64 - 1) };

    ghost stands = { stands_at };

    ghost does = { λ beat old result new streams. MakesBeat (sizing_of (store_of old.memory)) beat old result new streams };

    fn stand(&mut self, budget: u64) -> Option<MachineEnd> {
        if self.guest.retired < budget {
            return None;
        }
        self.ended = true;
        Some(MachineEnd::Budget)
    }

    fn beat<I: Source, O: Sink>(
        &mut self,
        beat: Beat,
        input: &mut I,
        out: &mut O,
    ) -> Option<MachineEnd> {
        match beat {
            Beat::Hart => self.hart_beat(input, out),
            Beat::Mover => {
                self.move_beat();
                None
            }
            Beat::Cleaner => {
                self.clean_beat();
                None
            }
        }
    }
}

/// Both cache levels over a store. Neither keeps a line.
fn levels_over(alloc: Global, store: Pages, settings: &Settings) -> Result<L1<L2<Pages>>, NoMemory>
    requires rules { AreWithinRules settings.now }
    requires lines { length store.lines ≡ 64 * settings.now.geometry.pages }
    ensures { IfOk result (λ memory. memory ≡ start_memory settings.now store) }
{
    let second = L2::new(
        alloc,
        store,
        settings.codec,
        settings.l2_sets,
        settings.l2_ways,
    )?;
    L1::new(
        alloc,
        second,
        settings.geometry,
        settings.l1_sets,
        settings.l1_ways,
    )
}

/// The free blocks of each order.
fn free_counts(store: &Pages) -> [u32; 4]
    ensures counts { AreFreeCounts store.now.used result }
    ensures none_free { (refusal : Refusal) → Crowded store.now refusal → AreNoneFrom refusal.order result }
{
    [store.free(0), store.free(1), store.free(2), store.free(3)]
}

/// Two runs from one state over the same told input that end alike, with as many instructions retired, leave one state,
/// with all its counts.
pub fn runs_are_one()
    ensures { RunsAreOne }
{}

/// Two runs from one state under different words of beats, over the same told input, that end alike with as many
/// instructions retired, and not for want of room, have the same counts of both levels, and the same lists but for the
/// dirty marks of the second level.
pub fn counts_are_alike()
    ensures { CountsAreAlike }
{}
