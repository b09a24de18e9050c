// The memory as a layer.
ghost use Rattle.std.specs.Prelude.{◌≡◌, ◌≢◌, ◌↔◌, ◌≤◌, ◌<◌, ◌*◌, ◌/◌, ◌%◌, ◌+◌, ◌^◌, ◌⊎◌, ℕ, List, [], length, replicate, slice_set, IsTrue, IsFalse, IfOk, IfErr, IfSome, OnOk, OnErr, MatchResult};
ghost use Rattle.buddy_frames.specs.Units.{place_at, IsFreeBlock, IsCount};
ghost use Rattle.hier_types.specs.Lines.{AreLines};
ghost use Rattle.hier_types.specs.Settings.{IsWithin as IsWithinRange};
ghost use Rattle.hier_types.specs.declared.faults.NoSpace.{NoSpace as Refusal};
ghost use Rattle.page_plan.specs.KeptSizes.{kept_sizes};
ghost use Rattle.page_plan.specs.PagePlan.{plan_of};
ghost use Rattle.page_plan.specs.Pages.{page_of};
ghost use Rattle.page_slots.specs.Descs.{size_of};
ghost use Rattle.page_store.specs.Contents.{SureWritesAreOne};
ghost use Rattle.page_store.specs.Layouts.{place_in, SoundStoresAreLaidOut};
ghost use Rattle.page_store.specs.Noted.{noted};
ghost use Rattle.page_store.specs.Turns.{UnwrittenPagesSettle};
ghost use Rattle.page_store.specs.PageBlocks.{base_at, HasRoom, LacksRoom};
ghost use Rattle.page_store.specs.Rooms.{bytes_of, IsWithin, IsInPage, changed, with_change};

use crate::blocks::Blocks;
use crate::page_lines::lines_in;
use crate::room::{Change, Held, relay};
use crate::totals::{replace_row, row_of_shape};
use hier_types::{
    Codec, Geometry, Layer, Line, LineNo, NoMemory, NoSpace, PAGE_LINES, PageCounts, PageNo, Totals,
};
use meta_cache::MetaCache;
use number_set::NumberSet;
use page_mover::{Turn, TurnKind, turn_by};
use page_plan::PageSizes;
use page_slots::{PlaceRow, PutResult, Shape, place};
use size_ledger::{Ledger, SizeRow};
use std::alloc::Global;
use std::marker::Model;

/// A memory of 1 to 65,536 pages of 64 lines, in frames of 4,096 bytes. Each page that is not zero has its bytes in its
/// block: its metadata, slots and exceptions, or its lines one after another. Beside them stands one byte a line for what
/// it takes in a slot, the totals of what all pages take, and a bit for each page that may be off its least layout under
/// the codec, which is its plan. A cache has the metadata of the pages that were looked up last. No call but `new` takes
/// memory. A call that changes lines is refused only where every other page is at its plan, and no place of the frames is
/// free for the page that it changes; never where there are at least as many frames as pages.
#[derive(Drop)]
pub struct Pages {
    codec: Codec,
    memory: Vec<u8>,
    blocks: Blocks,
    sizes: Vec<PageSizes>,
    strays: NumberSet,
    meta: MetaCache,
    counts: PageCounts,
    stops: u64,
    cursor: u32,
    ledger: Ledger,
}

impl Model for Pages {
    ghost use Rattle.page_store.specs.Rows.{IsKeptWhole};
    ghost use Rattle.page_store.specs.Store.{Store, store_in};

    ghost Value = { Store };

    ghost view = { λ p. store_in p.codec p.memory.items p.blocks.descriptors p.blocks.used p.meta p.counts p.stops p.cursor };

    ghost invariant = { λ p. IsKeptWhole (store_in p.codec p.memory.items p.blocks.descriptors p.blocks.used p.meta p.counts p.stops p.cursor) p.memory.items p.sizes.items p.strays p.ledger };
}

/// So many copies of a value.
fn copies<T: Copy>(alloc: Global, count: usize, value: T) -> Result<Vec<T>, NoMemory>
    ensures { IfOk result (λ made. made.items ≡ replicate count value) }
{
    let mut made = Vec::with_capacity(alloc, count)?;
    for done in 0..count {
        made.push(value)?;
    }
    Ok(made)
}

/// Brings the entry of a page up to date, once its bytes have changed.
fn note(meta: &mut MetaCache, page: PageNo, held: Held, memory: &[u8])
    requires { IsWithin memory.now held }
    ensures { meta.new ≡ noted meta.old page.0 held.shape (bytes_of memory.now held) }
{
    match held.shape {
        Shape::Slotted(_) => meta.renew(page, &held.chunk(memory)),
        _ => meta.forget(page),
    }
}

impl Pages {
    ghost use Rattle.hier_types.specs.Causes.{raised};
    ghost use Rattle.page_plan.specs.Sizes.{sizes_of_memory};
    ghost use Rattle.page_store.specs.Calls.{HasNoPlace, Places, PlacesPage, Refused, PutsIn, StaysZero, StoreRead, StoreWrite, Tidies, looked_up};
    ghost use Rattle.page_store.specs.Crowds.{Crowded};
    ghost use Rattle.page_store.specs.Lays.{BringsToPlan, KeepsLines, Lays, OthersAreAtPlan, TidiesOthers, plan_at};
    ghost use Rattle.page_store.specs.PageBlocks.{IsAtPlan};
    ghost use Rattle.page_store.specs.Turns.{MakesTurnOn, MoverTurns, TurnsPage, cursor_after, far_at, turn_at};
    ghost use Rattle.page_store.specs.Rows.{totals_at};
    ghost use Rattle.page_store.specs.Store.{AreAtPlan, IsSound, HasZero, desc_at, fresh};

    /// The pages of the span, all of them zero, 1 to 65,536 frames, of which none is in use, and a cache for the metadata of
    /// `meta` pages, 1 to 1,024. All memory is taken here.
    pub fn new(
        alloc: Global,
        geometry: Geometry,
        frames: u32,
        codec: Codec,
        meta: u32,
    ) -> Result<Pages, NoMemory>
        requires some_pages { 1 ≤ geometry.pages }
        requires most_pages { geometry.pages ≤ 65536 }
        requires some_frames { 1 ≤ frames }
        requires most_frames { frames ≤ 65536 }
        requires meta { IsWithinRange 1 1024 meta }
        ensures { IfOk result (λ made. made ≡ fresh (record { codec = codec; frames = frames; meta = meta }) geometry.pages) }
    {
        let pages = geometry.pages;
        let memory = vec![in alloc; 0u8; 4096 * frames as usize]?;
        let blocks = Blocks::new(alloc, pages, frames)?;
        let sizes = copies(alloc, pages as usize, PageSizes::of_zeros())?;
        let strays = NumberSet::new(alloc)?;
        let meta = MetaCache::new(alloc, meta)?;
        let mut ledger = Ledger::new();
        for page in 0..pages as usize {
            ledger.add_page(page, SizeRow::ZEROS);
        }
        Ok(Pages {
            codec,
            memory,
            blocks,
            sizes,
            strays,
            meta,
            counts: PageCounts::default(),
            stops: 0,
            cursor: 0,
            ledger,
        })
    }

    /// Looks the page of a line up in the metadata cache, where it has metadata.
    fn look(&mut self, line: LineNo)
        requires { line.0 < length self.old.lines }
        ensures { self.new ≡ looked_up self.old (line.0 / 64) }
    {
        let page = PageNo(line.0 / PAGE_LINES);
        let held = self.blocks.held(page.0 as usize);
        let Shape::Slotted(_) = held.shape else {
            return;
        };
        let chunk = held.chunk(&self.memory);
        if self.meta.look(page, &chunk) {
            self.counts.meta_hits = self.counts.meta_hits.saturating_add(1);
        } else {
            self.counts.meta_misses = self.counts.meta_misses.saturating_add(1);
        }
    }

    /// Puts a line where it belongs in its page's block. False, with nothing changed, where it has no place there.
    fn put(&mut self, line: LineNo, from: &Line) -> bool
        requires { line.0 < length self.old.lines }
        ensures puts { IsTrue result → StaysZero self.old (line.0 / 64) from.now self.new ⊎ PutsIn self.old (line.0 / 64) (line.0 % 64) from.now self.new }
        ensures lines { IsTrue result → self.new.lines ≡ slice_set self.old.lines line.0 from.now }
        ensures full { IsFalse result → HasNoPlace self.old (line.0 / 64) (line.0 % 64) from.now }
        ensures unchanged { IsFalse result → self.new ≡ self.old }
    {
        let page = PageNo(line.0 / PAGE_LINES);
        let index = page.0 as usize;
        let offset = (line.0 % PAGE_LINES) as u8;
        let held = self.blocks.held(index);
        if held.shape == Shape::Zero {
            return *from == [0; 64];
        }
        if held.put(self.codec, &mut self.memory, offset, from) == PutResult::Overflow {
            return false;
        }
        let before = row_of_shape(self.codec, held.shape, &self.sizes[index]);
        self.sizes[index].set(self.codec, offset as usize, from);
        note(&mut self.meta, page, held, &self.memory);
        self.strays.put(page.0, true);
        let after = row_of_shape(self.codec, held.shape, &self.sizes[index]);
        replace_row(&mut self.ledger, before, after);
        true
    }

    /// Lays a page anew at its plan, with what is new of it. The error is the plan's order, where no place of it is free
    /// for the page; nothing has changed then, and no line was read.
    fn lay(&mut self, page: usize, sizes: PageSizes, change: &Change) -> Result<(), u8>
        requires page_in { page < length self.old.descriptors }
        requires in_page { IsInPage change.now }
        requires lines { AreLines (changed change.now (page_of self.old.lines page)) }
        requires whole { length (changed change.now (page_of self.old.lines page)) ≡ 64 }
        requires sized { sizes ≡ kept_sizes self.old.codec (changed change.now (page_of self.old.lines page)) }
        ensures ok { OnOk result (Lays self.old page (with_change self.old.lines page change.now) self.new) }
        ensures room { OnOk result (HasRoom self.old.descriptors self.old.used page (plan_of self.old.codec (page_of (with_change self.old.lines page change.now) page))) }
        ensures frames { length self.new.used ≡ length self.old.used }
        ensures err { IfErr result (LacksRoom self.old.descriptors self.old.used page (plan_of self.old.codec (page_of (with_change self.old.lines page change.now) page))) }
        ensures unchanged { OnErr result (self.new ≡ self.old) }
    {
        let old = self.blocks.held(page);
        self.blocks.settle(page, sizes.plan())?;
        let new = self.blocks.held(page);
        relay(self.codec, old, new, change, &mut self.memory);
        let before = row_of_shape(self.codec, old.shape, &self.sizes[page]);
        let after = row_of_shape(self.codec, new.shape, &sizes);
        self.sizes[page] = sizes;
        note(&mut self.meta, PageNo(page as u32), new, &self.memory);
        self.strays.put(page as u32, false);
        replace_row(&mut self.ledger, before, after);
        Ok(())
    }

    /// Makes a turn that is a page's next one. The page stays in its block, or in the first units of it.
    fn make(&mut self, page: usize, turn: Turn)
        requires page_in { page < length self.old.descriptors }
        requires turn { turn ≡ turn_at self.old page }
        requires off { turn ≢ Turn.Next }
        ensures makes { MakesTurnOn self.old page turn self.new }
        ensures falls { far_at self.new page < far_at self.old page }
        ensures keeps { KeepsLines self.old self.new }
    {
        let held = self.blocks.held(page);
        let before = row_of_shape(self.codec, held.shape, &self.sizes[page]);
        let shape = held.turn(self.codec, turn, &mut self.memory);
        self.blocks.reshape(page, shape);
        let new = self.blocks.held(page);
        let after = row_of_shape(self.codec, new.shape, &self.sizes[page]);
        note(&mut self.meta, PageNo(page as u32), new, &self.memory);
        replace_row(&mut self.ledger, before, after);
    }

    /// Makes the next turn of a page. One that is no stray is at its plan, and one that is found there is no stray any more.
    fn turn(&mut self, page: usize) -> Turn
        requires { page < length self.old.descriptors }
        ensures turns { TurnsPage self.old page result self.new }
        ensures at_plan { result ≡ Turn.Next ↔ IsAtPlan (plan_at self.old page) (desc_at self.old.descriptors page) }
        ensures far { result ≡ Turn.Next ↔ (far_at self.old page ≡ 0) }
        ensures falls { result ≢ Turn.Next → far_at self.new page < far_at self.old page }
        ensures most { far_at self.old page ≤ 183 }
        ensures keeps { KeepsLines self.old self.new }
    {
        if !self.strays.has(page as u32) {
            return Turn::Next;
        }
        let sizes = self.sizes[page];
        let held = self.blocks.held(page);
        let turn = turn_by(held.shape, held.bytes(&self.memory), sizes.plan(), &sizes);
        if turn == Turn::Next {
            self.strays.put(page as u32, false);
            return Turn::Next;
        }
        self.make(page, turn);
        turn
    }

    /// Brings one page to its plan, by as many turns as that takes. They are counted.
    fn tidy_page(&mut self, page: usize)
        requires { page < length self.old.descriptors }
        ensures brings { BringsToPlan self.old page self.new }
        ensures keeps { KeepsLines self.old self.new }
    {
        while self.turn(page) != Turn::Next {
            self.counts.tidy_turns = self.counts.tidy_turns.saturating_add(1);
        }
    }

    /// Brings every page but one to its plan, in rising order.
    fn tidy_others(&mut self, but: usize)
        ensures tidied { TidiesOthers self.old but self.new }
        ensures keeps { KeepsLines self.old self.new }
        ensures at_plan { OthersAreAtPlan self.old but self.new }
    {
        for page in 0..self.sizes.len() {
            if page != but {
                self.tidy_page(page);
            }
        }
    }

    /// Lays a page anew, and where no place is free for it tidies the others and asks once more.
    fn rewrite(&mut self, page: PageNo, sizes: PageSizes, change: &Change) -> Result<(), NoSpace>
        requires page_in { page.0 < length self.old.descriptors }
        requires in_page { IsInPage change.now }
        requires lines { AreLines (changed change.now (page_of self.old.lines page.0)) }
        requires whole { length (changed change.now (page_of self.old.lines page.0)) ≡ 64 }
        requires sized { sizes ≡ kept_sizes self.old.codec (changed change.now (page_of self.old.lines page.0)) }
        ensures { MatchResult result (λ _. Places self.old page.0 (with_change self.old.lines page.0 change.now) self.new)
            (λ refusal. Refused self.old self.old page.0 (with_change self.old.lines page.0 change.now) (Unit {0}) refusal self.new) }
    {
        let index = page.0 as usize;
        if self.lay(index, sizes, change).is_ok() {
            return Ok(());
        }
        self.tidy_others(index);
        match self.lay(index, sizes, change) {
            Ok(()) => Ok(()),
            Err(order) => Err(self.refuse(page, order)),
        }
    }

    /// Lays a page that is zero at the plan of these bytes, which are new. It counts as no write. The refusal is that of a
    /// write.
    pub fn place_page(&mut self, page: PageNo, bytes: &[u8; 4096]) -> Result<(), NoSpace>
        requires { HasZero self.old page.0 }
        ensures { PlacesPage self.old page.0 bytes.now result self.new }
    {
        let lines = lines_in(bytes);
        let sizes = PageSizes::of(self.codec, &lines);
        self.rewrite(page, sizes, &Change::AllLines { lines: &lines })
    }

    /// Changes one line: in its place, or with its page laid anew.
    fn change(&mut self, line: LineNo, from: &Line) -> Result<(), NoSpace>
        requires { line.0 < length self.old.lines }
        ensures { StoreWrite self.old line.0 from.now result self.new }
    {
        let page = PageNo(line.0 / PAGE_LINES);
        let index = page.0 as usize;
        let offset = (line.0 % PAGE_LINES) as u8;
        self.look(line);
        if !self.put(line, from) {
            let mut sizes = self.sizes[index];
            sizes.set(self.codec, offset as usize, from);
            let change = Change::OneLine {
                line: offset,
                bytes: *from,
            };
            self.rewrite(page, sizes, &change)?;
        }
        self.counts.writes = self.counts.writes.saturating_add(1);
        Ok(())
    }

    /// The mover goes on to the next page, and from the last one to page 0.
    fn move_on(&mut self)
        ensures { self.new ≡ record self.old { cursor = cursor_after Turn.Next self.old } }
    {
        self.cursor = if self.cursor as usize + 1 == self.sizes.len() {
            0
        } else {
            self.cursor + 1
        };
    }

    /// One turn of the mover, on the page where it stands: one line goes to a slot of another length, one exception to
    /// another chunk, the page is cut to half its block, or it is laid anew where the block has no room for such steps.
    /// No line changes and no other page. A turn on a page at its plan is Next, which is exactly where it is 0 far from
    /// it, and the mover goes on to the next page; every other turn brings it nearer. It never refuses.
    pub fn mover_turn(&mut self) -> TurnKind
        ensures turns { MoverTurns self.old result self.new }
        ensures lines { self.new.lines ≡ self.old.lines }
        ensures at_plan { result ≡ TurnKind.Next ↔ IsAtPlan (plan_at self.old self.old.cursor) (desc_at self.old.descriptors self.old.cursor) }
        ensures far { result ≡ TurnKind.Next ↔ (far_at self.old self.old.cursor ≡ 0) }
        ensures falls { result ≢ TurnKind.Next → far_at self.new self.old.cursor < far_at self.old self.old.cursor }
        ensures most { far_at self.old self.old.cursor ≤ 183 }
    {
        let turn = self.turn(self.cursor as usize);
        if turn == Turn::Next {
            self.move_on();
        }
        self.counts.mover_turns = self.counts.mover_turns.saturating_add(1);
        turn.kind()
    }

    /// The page where the mover stands.
    pub fn cursor(&self) -> PageNo
        ensures page { result.0 ≡ self.now.cursor }
        ensures inside { result.0 < length self.now.descriptors }
    {
        PageNo(self.cursor)
    }

    /// Counts one more refusal.
    fn refuse(&mut self, page: PageNo, order: u8) -> NoSpace
        ensures refusal { result ≡ record { page = page; order = order } }
        ensures counted { self.new ≡ record self.old { stops = raised self.old.stops } }
        ensures sound { IsSound self.old }
    {
        self.stops = self.stops.saturating_add(1);
        NoSpace { page, order }
    }

    /// Brings every page to its plan by turns, in rising order. They are counted apart from the mover's, which stays where it
    /// is. It is never refused: the plan of a page that has a block never asks for a larger one.
    pub fn tidy(&mut self)
        ensures { Tidies self.old self.new }
    {
        let past_the_last = self.sizes.len();
        self.tidy_others(past_the_last);
    }

    /// The number of free blocks of an order, 0 to 3: those of `2 ^ order` units of 512 bytes. It is 0 for a greater order,
    /// and from the order on that a crowded memory has refused.
    pub fn free(&self, order: u8) -> u32
        ensures count { IsCount (8 * length self.now.used) (λ unit. IsFreeBlock self.now.used (place_at order unit)) result }
        ensures crowded { (refusal : Refusal) → Crowded self.now refusal → refusal.order ≤ order → result ≡ 0 }
    {
        self.blocks.free(order)
    }

    /// A place of a page by its index: the block first, then the metadata of a packed page, then the lines in rising order.
    /// None exactly where the index is past the page's places. A page of zeros and one past the last have none.
    pub fn layout_row(&self, page: PageNo, index: u8) -> Option<PlaceRow>
        ensures { result ≡ place_in self.now page.0 index }
    {
        let page = page.0 as usize;
        if page >= self.sizes.len() {
            return None;
        }
        let held = self.blocks.held(page);
        place(self.blocks.desc(page), held.bytes(&self.memory), index)
    }

    /// The first byte of a page's block among those of the frames, a multiple of the block's length. None exactly where the
    /// page has no block.
    pub fn base_of(&self, page: PageNo) -> Option<u32>
        ensures base { result ≡ base_at self.now.descriptors page.0 }
        ensures most { IfSome result (λ base. base < 2 ^ 28) }
    {
        let page = page.0 as usize;
        if page >= self.sizes.len() {
            return None;
        }
        self.blocks.base(page)
    }

    /// What the pages take as they lie, from how each is kept and from the sizes of its lines. The sums are kept with each
    /// change. Where each page is at its plan, that is what their lines alone tell.
    pub fn totals(&self) -> Totals
        ensures lie { result ≡ totals_at self.now }
        ensures at_plan { AreAtPlan self.now → result ≡ sizes_of_memory self.now.codec self.now.lines }
    {
        self.ledger.totals()
    }

    /// The calls that were counted. Between any two calls the memory is sound.
    pub fn counts(&self) -> PageCounts
        ensures counts { result ≡ self.now.counts }
        ensures sound { IsSound self.now }
    {
        self.counts
    }
}

impl Layer for Pages {
    ghost use Rattle.page_store.specs.Calls.{StoreRead, StoreWrite};
    ghost use Rattle.page_store.specs.Crowds.{Crowded};

    ghost content = { λ p. p.lines };

    ghost stops = { λ p. p.stops };

    ghost crowded = { Crowded };

    ghost did_read = { StoreRead };

    ghost did_write = { StoreWrite };

    fn lines(&self) -> u32 {
        PAGE_LINES * self.sizes.len() as u32
    }

    fn read(&mut self, line: LineNo, into: &mut Line) -> Result<(), NoSpace> {
        self.look(line);
        self.view(line, into);
        self.counts.reads = self.counts.reads.saturating_add(1);
        Ok(())
    }

    fn write(&mut self, line: LineNo, from: &Line) -> Result<(), NoSpace> {
        self.change(line, from)
    }

    fn view(&self, line: LineNo, into: &mut Line) {
        let held = self.blocks.held((line.0 / PAGE_LINES) as usize);
        held.line(&self.memory, (line.0 % PAGE_LINES) as u8, into);
    }
}

/// The block of each page lies in the frames, and no two of them share a byte. Neither do two places of a page, and each
/// line of a page that has a block has one place. A line stands in its slot exactly where it fits it, and uses its stored
/// size of it.
pub fn sound_stores_are_laid_out()
    ensures { SoundStoresAreLaidOut }
{}

/// A page is at its plan after at most 183 turns that are made on it, as long as it is left alone between them.
pub fn unwritten_pages_settle()
    ensures { UnwrittenPagesSettle }
{}

/// A write that can't be cut has one answer and leaves one state, by the contents alone.
pub fn sure_writes_are_one()
    ensures { SureWritesAreOne }
{}
