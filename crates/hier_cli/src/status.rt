// How the program ends, and with which code.
ghost use Rattle.std.specs.Prelude.{◌≡◌};
ghost use Rattle.hier_cli.specs.Notices.{code_of};

use run_report::End;

/// The end and the exit code. `docs/FORMATS.md` has the code and the cause of each end.
#[derive(Clone, Copy, Debug, PartialEq, Eq)]
pub struct Status {
    pub end: End,
    pub code: u8,
}

impl Status {
    /// The status of an end.
    pub fn of(end: End) -> Self
        ensures end { result.end ≡ end }
        ensures code { result.code ≡ code_of end }
    {
        let code = match end {
            End::Done => 0,
            End::Exit { status } => (status % 256) as u8,
            End::Usage => 200,
            End::Setting { .. } => 201,
            End::FileFault => 202,
            End::TooLong => 203,
            End::BadImage { .. } => 204,
            End::BadTrace { .. } => 205,
            End::Trap { .. } => 206,
            End::Budget => 207,
            End::Space { .. } => 208,
            End::NoRoom { .. } => 209,
            End::InFault => 210,
            End::OutFault => 211,
            End::NoteFault => 212,
            End::NoMemory => 213,
        };
        Status { end, code }
    }
}
