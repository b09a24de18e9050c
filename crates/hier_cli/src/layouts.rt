// Where every line stood in the store that a run left, printed place by place.
ghost use Rattle.std.specs.Prelude.{◌≡◌, ◌<◌, ◌^◌, OnErr, OnOk};
ghost use Rattle.std.specs.Io.KnownBytes.{Appends};
ghost use Rattle.hier_types.specs.Causes.{HasCause};
ghost use Rattle.hier_types.specs.Outside.{AppendsFront};
ghost use Rattle.hier_types.specs.Settings.{AreWithinRules};
ghost use Rattle.hier_types.specs.Streams.{went};
ghost use Rattle.hier_cli.specs.Layouts.{EndsLayout, layout_text, text_of_block, text_of_place, text_of_places};
ghost use Rattle.hier_cli.specs.Notices.{IsTellable};
ghost use Rattle.page_store.specs.Layouts.{place_in};

use crate::dropped_runs::run_dropped;
use crate::notice::Notice;
use hier_types::{Failed, Geometry, PageNo, Settings, Sink, Source};
use page_store::Pages;
use run_report::write_place;
use std::alloc::Global;

/// The most places that a page has: its block, its metadata and its lines.
const PLACES: u8 = 66;

/// Runs the program in a file with its output dropped, and prints the places of the pages in the store then.
pub(crate) fn run_for_layout<I: Source, O: Sink>(
    alloc: Global,
    file: Vec<u8>,
    settings: &Settings,
    input: &mut I,
    out: &mut O,
) -> Notice
    requires { AreWithinRules settings.now }
    ensures ends { EndsLayout settings.now (went I.left I.faults O.written O.faults input.old input.new out.old out.new) file.items result }
    ensures tellable { IsTellable result }
{
    let ran = match run_dropped(alloc, file, settings, input) {
        Ok(ran) => ran,
        Err(end) => return Notice::Ended(end),
    };
    let printed = print_layout(ran.machine.pages(), settings.geometry, out);
    ran.notice(printed)
}

/// Prints the places of each page, in rising order.
fn print_layout<O: Sink>(pages: &Pages, geometry: Geometry, out: &mut O) -> Result<(), Failed>
    ensures ok { OnOk result (Appends (O.written out.old) (O.written out.new) (layout_text geometry pages.now)) }
    ensures err { OnErr result (AppendsFront (O.written out.old) (O.written out.new) (layout_text geometry pages.now)) }
    ensures cause { HasCause (O.faults out.old) (O.faults out.new) result }
{
    for number in 0..geometry.pages {
        if let Err(failed) = print_places(pages, geometry, PageNo(number), out) {
            return Err(failed);
        }
    }
    Ok(())
}

/// Prints the places of a page, unless it is zero.
fn print_places<O: Sink>(
    pages: &Pages,
    geometry: Geometry,
    page: PageNo,
    out: &mut O,
) -> Result<(), Failed>
    ensures ok { OnOk result (Appends (O.written out.old) (O.written out.new) (text_of_places geometry pages.now page.0)) }
    ensures err { OnErr result (AppendsFront (O.written out.old) (O.written out.new) (text_of_places geometry pages.now page.0)) }
    ensures cause { HasCause (O.faults out.old) (O.faults out.new) result }
{
    let Some(base) = pages.base_of(page) else {
        return Ok(());
    };
    print_block(pages, geometry, page, base, out)
}

/// Prints the places of a page whose block begins at `base`.
fn print_block<O: Sink>(
    pages: &Pages,
    geometry: Geometry,
    page: PageNo,
    base: u32,
    out: &mut O,
) -> Result<(), Failed>
    requires { base < 2 ^ 28 }
    ensures ok { OnOk result (Appends (O.written out.old) (O.written out.new) (text_of_block geometry pages.now page.0 base)) }
    ensures err { OnErr result (AppendsFront (O.written out.old) (O.written out.new) (text_of_block geometry pages.now page.0 base)) }
    ensures cause { HasCause (O.faults out.old) (O.faults out.new) result }
{
    for index in 0..PLACES {
        if let Err(failed) = print_place(pages, geometry, page, base, index, out) {
            return Err(failed);
        }
    }
    Ok(())
}

/// Prints a place of a page, where there is one of that index.
fn print_place<O: Sink>(
    pages: &Pages,
    geometry: Geometry,
    page: PageNo,
    base: u32,
    index: u8,
    out: &mut O,
) -> Result<(), Failed>
    requires { base < 2 ^ 28 }
    ensures ok { OnOk result (Appends (O.written out.old) (O.written out.new) (text_of_place geometry page.0 base (place_in pages.now page.0 index))) }
    ensures err { OnErr result (AppendsFront (O.written out.old) (O.written out.new) (text_of_place geometry page.0 base (place_in pages.now page.0 index))) }
    ensures cause { HasCause (O.faults out.old) (O.faults out.new) result }
{
    match pages.layout_row(page, index) {
        None => Ok(()),
        Some(place) => write_place(geometry, page, base, &place, out),
    }
}
