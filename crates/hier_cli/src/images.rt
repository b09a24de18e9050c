// The memory that a run left, printed page by page.
ghost use Rattle.std.specs.Prelude.{◌≡◌, ◌<◌, ◌++◌, OnErr, OnOk};
ghost use Rattle.std.specs.Int.{w32, to_le_bytes};
ghost use Rattle.std.specs.Io.KnownBytes.{Appends};
ghost use Rattle.hier_types.specs.Causes.{HasCause};
ghost use Rattle.hier_types.specs.Outside.{AppendsFront};
ghost use Rattle.hier_types.specs.Settings.{AreWithinRules};
ghost use Rattle.hier_types.specs.Streams.{went};
ghost use Rattle.hier_cli.specs.Images.{EndsImage, image_text, text_of_page};
ghost use Rattle.hier_cli.specs.Notices.{IsTellable};

use crate::dropped_runs::run_dropped;
use crate::notice::Notice;
use hier_machine::Machine;
use hier_types::{Failed, Geometry, PAGE_BYTES, PageNo, Settings, Sink, Source};
use std::alloc::Global;

/// Runs the program in a file with its output dropped, and prints the pages that are not zero then, in rising order.
pub(crate) fn run_for_image<I: Source, O: Sink>(
    alloc: Global,
    file: Vec<u8>,
    settings: &Settings,
    input: &mut I,
    out: &mut O,
) -> Notice
    requires { AreWithinRules settings.now }
    ensures ends { EndsImage settings.now (went I.left I.faults O.written O.faults input.old input.new out.old out.new) file.items result }
    ensures tellable { IsTellable result }
{
    let ran = match run_dropped(alloc, file, settings, input) {
        Ok(ran) => ran,
        Err(end) => return Notice::Ended(end),
    };
    let printed = print_pages(&ran.machine, settings.geometry, out);
    ran.notice(printed)
}

/// Prints each page that is not zero behind its address.
fn print_pages<O: Sink>(machine: &Machine, geometry: Geometry, out: &mut O) -> Result<(), Failed>
    requires { machine.now.memory.span ≡ geometry }
    ensures ok { OnOk result (Appends (O.written out.old) (O.written out.new) (image_text geometry machine.now.guest.hart.bytes)) }
    ensures err { OnErr result (AppendsFront (O.written out.old) (O.written out.new) (image_text geometry machine.now.guest.hart.bytes)) }
    ensures cause { HasCause (O.faults out.old) (O.faults out.new) result }
{
    let mut bytes = [0; 4096];
    for number in 0..geometry.pages {
        machine.view_page(PageNo(number), &mut bytes);
        if let Err(failed) = print_page(&bytes, geometry, number, out) {
            return Err(failed);
        }
    }
    Ok(())
}

/// Prints a page, unless it is zero.
fn print_page<O: Sink>(
    bytes: &[u8; 4096],
    geometry: Geometry,
    number: u32,
    out: &mut O,
) -> Result<(), Failed>
    requires { number < geometry.pages }
    ensures ok { OnOk result (Appends (O.written out.old) (O.written out.new) (text_of_page geometry number bytes.now)) }
    ensures err { OnErr result (AppendsFront (O.written out.old) (O.written out.new) (text_of_page geometry number bytes.now)) }
    ensures cause { HasCause (O.faults out.old) (O.faults out.new) result }
{
    if *bytes == [0; 4096] {
        return Ok(());
    }
    print_at(geometry.first() + number * PAGE_BYTES, bytes, out)
}

/// Prints a page behind its address, the lowest byte first: the address in one call, and its bytes in another.
fn print_at<O: Sink>(at: u32, bytes: &[u8; 4096], out: &mut O) -> Result<(), Failed>
    ensures ok { OnOk result (Appends (O.written out.old) (O.written out.new) (to_le_bytes w32 at ++ bytes.now)) }
    ensures err { OnErr result (AppendsFront (O.written out.old) (O.written out.new) (to_le_bytes w32 at ++ bytes.now)) }
    ensures cause { HasCause (O.faults out.old) (O.faults out.new) result }
{
    if let Err(failed) = out.write(&at.to_le_bytes()) {
        return Err(failed);
    }
    out.write(bytes)
}
