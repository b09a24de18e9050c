// Work on the layers below the first level.
ghost use Rattle.std.specs.Prelude.{◌≡◌, IfErr, IsOk, OnOk};
ghost use Rattle.hier_types.specs.Settings.{AreWithinRules};
ghost use Rattle.page_store.specs.Store.{fresh};
ghost use Rattle.recency.specs.Levels.{KeepsUnder};
ghost use Rattle.hier_machine.specs.Memory.{store_of};
ghost use Rattle.hier_machine.specs.Placed.{NoRoomFor, PlacedUpTo};
ghost use Rattle.hier_machine.specs.Start.{asked_sizing, start_memory};

use crate::opening::place_image;
use elf_image::Image;
use hier_types::{Errand, Layer, NoSpace, Settings};
use l1_cache::L1;
use l2_cache::L2;
use page_store::Pages;

/// An errand to the layer under a second level.
#[derive(Drop)]
pub struct Through<E> {
    pub errand: E,
}

impl<B: Layer, E: Errand<B>> Errand<L2<B>> for Through<E> {
    ghost may_go = { λ d s. E.may_go d.errand s.below × ((after : E) (below : B) → E.did_go d.errand s.below after below → KeepsUnder s.sets (B.content s.below) (B.content below)) };

    ghost did_go = { λ d s e t. E.did_go d.errand s.below e.errand t.below × (t ≡ record s { below = t.below }) };

    fn go(&mut self, below: &mut L2<B>) {
        below.below_do(&mut self.errand);
    }
}

/// Places the pages of an image.
#[derive(Drop)]
pub struct Placing<'a> {
    image: &'a Image,
    pages: u32,
    answer: Result<(), NoSpace>,
}

impl Errand<Pages> for Placing<'_> {
    ghost use Rattle.hier_machine.specs.Placed.{AwaitsImage, PlacesImage};

    ghost may_go = { λ p s. AwaitsImage p.image.now p.pages s };

    ghost did_go = { λ p s q t. PlacesImage p.image.now p.pages s q.answer t };

    fn go(&mut self, below: &mut Pages) {
        self.answer = place_image(below, self.image, self.pages);
    }
}

/// Places the pages of an image that are not zero, in rising order, up to one that finds no room. No level keeps a line.
pub fn place_under(
    memory: &mut L1<L2<Pages>>,
    settings: &Settings,
    image: &Image,
) -> Result<(), NoSpace>
    requires same { image.now.span ≡ settings.now.geometry }
    requires rules { AreWithinRules settings.now }
    requires empty { memory.old ≡ start_memory settings.now (fresh (asked_sizing settings.now) settings.now.geometry.pages) }
    ensures memory { memory.new ≡ start_memory settings.now (store_of memory.new) }
    ensures ok { OnOk result (PlacedUpTo image.now (asked_sizing settings.now) settings.now.geometry.pages (store_of memory.new)) }
    ensures err { IfErr result (NoRoomFor image.now (asked_sizing settings.now)) }
{
    let placing = Placing {
        image,
        pages: settings.geometry.pages,
        answer: Ok(()),
    };
    let mut errand = Through { errand: placing };
    memory.below_do(&mut errand);
    errand.errand.answer
}

/// Writes the changed lines of the second level down to the pages.
#[derive(Drop)]
pub struct FlushSecond {
    pub answer: Result<(), NoSpace>,
}

impl FlushSecond {
    /// The errand before it is done.
    pub fn new() -> Self
        ensures { IsOk result.answer }
    {
        FlushSecond { answer: Ok(()) }
    }
}

impl Errand<L2<Pages>> for FlushSecond {
    ghost use Rattle.hier_machine.specs.Settles.{FlushesDown};

    ghost may_go = { λ _ _. Unit {0} };

    ghost did_go = { λ _ before errand after. FlushesDown before errand.answer after };

    fn go(&mut self, below: &mut L2<Pages>) {
        self.answer = below.flush();
    }
}

/// Brings every page to its plan.
#[derive(Drop)]
pub struct Tidying;

impl Errand<Pages> for Tidying {
    ghost use Rattle.page_store.specs.Calls.{Tidies};

    ghost may_go = { λ _ _. Unit {0} };

    ghost did_go = { λ _ before _ after. Tidies before after };

    fn go(&mut self, below: &mut Pages) {
        below.tidy();
    }
}

/// Makes one turn of the cleaner of the second level.
#[derive(Drop)]
pub struct CleaningTurn;

impl Errand<L2<Pages>> for CleaningTurn {
    ghost use Rattle.std.specs.Prelude.{◌≡◌};
    ghost use Rattle.page_store.specs.Calls.{StoreRead, StoreWrite};
    ghost use Rattle.hier_machine.specs.Levels.{CleanerBelow};
    ghost use Rattle.hier_machine.specs.Memory.{lines_below};

    ghost may_go = { λ _ _. Unit {0} };

    ghost did_go = { λ _ before _ after. CleanerBelow StoreRead StoreWrite before after × (lines_below after ≡ lines_below before) };

    fn go(&mut self, below: &mut L2<Pages>) {
        let _ = below.clean_turn();
    }
}

/// Makes one turn of the mover of the pages.
#[derive(Drop)]
pub struct MovingTurn;

impl Errand<Pages> for MovingTurn {
    ghost use Rattle.std.specs.Prelude.{◌≡◌};
    ghost use Rattle.hier_machine.specs.Beats.{MovesPages};

    ghost may_go = { λ _ _. Unit {0} };

    ghost did_go = { λ _ before _ after. MovesPages before after × (after.lines ≡ before.lines) };

    fn go(&mut self, below: &mut Pages) {
        let _ = below.mover_turn();
    }
}
