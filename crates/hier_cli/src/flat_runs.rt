// Runs of the program in a file over flat memory.
ghost use Rattle.std.specs.Prelude.{◌≡◌, None, IfErr, IfOk};
ghost use Rattle.elf_image.specs.Accepted.{fault_of};
ghost use Rattle.hier_types.specs.Settings.{AreWithinRules};
ghost use Rattle.hier_types.specs.Streams.{went};
ghost use Rattle.hier_cli.specs.FlatRuns.{EndsFlat, IsImageEnd};
ghost use Rattle.hier_cli.specs.Notices.{IsTellable};

use crate::notice::Notice;
use elf_image::{Image, ImageKind, read_image};
use hier_machine::end_of;
use hier_types::{Geometry, Settings, Sink, Source};
use run_report::End;
use rv_flat::FlatMemory;
use rv_guest::{Guest, Program};
use std::alloc::Global;

/// Runs the program in a file over flat memory, which refuses nothing.
pub(crate) fn run_flat<I: Source, O: Sink>(
    alloc: Global,
    file: Vec<u8>,
    settings: &Settings,
    input: &mut I,
    out: &mut O,
) -> Notice
    requires { AreWithinRules settings.now }
    ensures ends { EndsFlat settings.now (went I.left I.faults O.written O.faults input.old input.new out.old out.new) file.items result }
    ensures tellable { IsTellable result }
{
    let image = match image_of(alloc, file, settings.geometry) {
        Ok(image) => image,
        Err(end) => return Notice::Ended(end),
    };
    let Ok(mut memory) = FlatMemory::new(alloc, settings.geometry) else {
        return Notice::Ended(End::NoMemory);
    };
    memory.load(&image);
    let mut program = Program {
        guest: Guest::start(image.entry(), image.end(), &settings.geometry),
        port: memory,
    };
    match end_of(program.run(settings.budget, input, out)) {
        Ok(end) => Notice::Retired {
            end,
            retired: program.guest.retired,
        },
        Err(_) => unreachable!(),
    }
}

/// The image of a file.
fn image_of(alloc: Global, file: Vec<u8>, geometry: Geometry) -> Result<Image, End>
    ensures ok { IfOk result (λ image. (fault_of geometry file.items ≡ None) × (image ≡ record { span = geometry; file = file.items })) }
    ensures err { IfErr result (IsImageEnd geometry file.items) }
{
    match read_image(alloc, file, geometry) {
        Ok(image) => Ok(image),
        Err(fault) if fault.kind == ImageKind::NoMemory => Err(End::NoMemory),
        Err(fault) => Err(End::BadImage { fault }),
    }
}
