// A machine on the program in a file.
ghost use Rattle.std.specs.Prelude.{◌≡◌, IfErr, IfOk};
ghost use Rattle.hier_types.specs.Settings.{AreWithinRules};
ghost use Rattle.hier_machine.specs.FileRuns.{FailsToOpen, Opens};

use crate::ends::{NotOpened, OpenFault};
use crate::machine::Machine;
use elf_image::{ImageKind, read_image};
use hier_types::Settings;
use std::alloc::Global;

/// Opens a machine on the program in a file, and takes all the memory that its run needs.
pub fn open_file(alloc: Global, file: Vec<u8>, settings: &Settings) -> Result<Machine, NotOpened>
    requires { AreWithinRules settings.now }
    ensures ok { IfOk result (Opens settings.now file.items) }
    ensures err { IfErr result (FailsToOpen settings.now file.items) }
{
    let image = match read_image(alloc, file, settings.geometry) {
        Ok(image) => image,
        Err(fault) if fault.kind == ImageKind::NoMemory => return Err(NotOpened::NoMemory),
        Err(fault) => return Err(NotOpened::BadImage(fault)),
    };
    match Machine::open(alloc, settings, &image) {
        Ok(machine) => Ok(machine),
        Err(OpenFault::NoMemory) => Err(NotOpened::NoMemory),
        Err(OpenFault::NoRoom(refusal)) => Err(NotOpened::NoRoom(refusal)),
    }
}
