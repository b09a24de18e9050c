// How a run ends.
ghost use Rattle.std.specs.Prelude.{◌≡◌, ◌*◌, ◌+◌};
ghost use Rattle.run_report.specs.declared.end.End.TheVariants.{NoRoom, Space};
ghost use Rattle.run_report.specs.Texts.{page_address};

use elf_image::ImageFault;
use hier_types::{Geometry, NoSpace, PAGE_BYTES, PageNo, SettingName};
use rv_core::Trap;
use trace_reader::TraceFault;

/// How the work ends.
#[derive(Clone, Copy, Debug, PartialEq, Eq)]
pub enum End {
    /// The work that is no run came to its end.
    Done,
    /// The guest exited with this status.
    Exit {
        status: u32,
    },
    /// The words are no command line.
    Usage,
    /// This setting is the first one whose value breaks its rule.
    Setting {
        name: SettingName,
    },
    /// The shelf failed, or has no file of the name.
    FileFault,
    /// The file has more bytes than the limit.
    TooLong,
    /// The file is no image for the guest's span.
    BadImage {
        fault: ImageFault,
    },
    /// The file is no trace for the guest's span.
    BadTrace {
        fault: TraceFault,
    },
    /// An instruction trapped.
    Trap(Trap),
    /// As many instructions retired, or accesses were made, as the budget allows.
    Budget,
    /// A page outgrew its block, and no free place holds one of the order that it wants.
    Space {
        /// The address of the page.
        at: u32,
        /// 0 to 3, for 512 to 4,096 bytes.
        order: u8,
        /// How many blocks of each order from 0 on are free.
        free: [u32; 4],
    },
    /// The same of a page of the image, before the run.
    NoRoom {
        /// The address of the page.
        at: u32,
        order: u8,
    },
    /// The input failed at a read of the guest.
    InFault,
    /// The output failed at a write of the guest, or while a result was printed.
    OutFault,
    /// The note failed. It takes the place of the end that was to be noted.
    NoteFault,
    /// Memory ran out.
    NoMemory,
}

impl End {
    /// The end of a run that was refused a block, with the free blocks of each order from 0 on.
    pub fn space(geometry: Geometry, refusal: NoSpace, free: [u32; 4]) -> Self
        ensures { result ≡ Space (page_address geometry refusal.page.0) refusal.order free }
    {
        End::Space {
            at: page_address(geometry, refusal.page),
            order: refusal.order,
            free,
        }
    }

    /// The end where a page of the image was refused a block.
    pub fn no_room(geometry: Geometry, refusal: NoSpace) -> Self
        ensures { result ≡ NoRoom (page_address geometry refusal.page.0) refusal.order }
    {
        End::NoRoom {
            at: page_address(geometry, refusal.page),
            order: refusal.order,
        }
    }
}

/// The address of a page of the guest's span.
pub(crate) fn page_address(geometry: Geometry, page: PageNo) -> u32
    ensures { result ≡ page_address geometry page.0 }
{
    let at = u64::from(PAGE_BYTES) * (u64::from(geometry.base) + u64::from(page.0));
    (at % (1 << 32)) as u32
}
