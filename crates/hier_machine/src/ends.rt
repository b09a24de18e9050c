// Why no machine was opened, and how a trace ends.
ghost use Rattle.std.specs.Prelude.{◌≡◌, IfErr, IfOk, None, Some};
ghost use Rattle.hier_machine.specs.Ends.{told_as};
ghost use Rattle.rv_guest.specs.declared.ends.MachineEnd.TheVariants.{Space};

use elf_image::ImageFault;
use hier_types::NoSpace;
use run_report::End;
use rv_guest::MachineEnd;

/// Why no machine was opened.
#[derive(Clone, Copy, Debug, PartialEq, Eq)]
pub enum OpenFault {
    NoMemory,
    /// No free place holds a page of the image, beside the pages before it.
    NoRoom(NoSpace),
}

/// Why no machine was opened on a file.
#[derive(Clone, Copy, Debug, PartialEq, Eq)]
pub enum NotOpened {
    /// The file is no image for the guest's span.
    BadImage(ImageFault),
    NoMemory,
    /// No free place holds a page of the image, beside the pages before it.
    NoRoom(NoSpace),
}

/// How a trace ends.
#[derive(Clone, Copy, Debug, PartialEq, Eq)]
pub enum TraceEnd {
    /// No access is left.
    Done,
    /// One is left, and as many were made as the budget allows.
    Budget,
    /// An access was refused: no free place holds a page that outgrew its own.
    Space(NoSpace),
    /// The output failed at what an access gave.
    OutFault,
}

/// The program's end for a run's. A refusal is handed back: its end tells of the store that refused.
pub fn end_of(end: MachineEnd) -> Result<End, NoSpace>
    ensures told { IfOk result (λ own. told_as end ≡ Some own) }
    ensures refused { IfErr result (λ refusal. end ≡ Space refusal) }
{
    match end {
        MachineEnd::Exit(status) => Ok(End::Exit { status }),
        MachineEnd::Trap(trap) => Ok(End::Trap(trap)),
        MachineEnd::Budget => Ok(End::Budget),
        MachineEnd::Space(refusal) => Err(refusal),
        MachineEnd::InFault => Ok(End::InFault),
        MachineEnd::OutFault => Ok(End::OutFault),
    }
}
