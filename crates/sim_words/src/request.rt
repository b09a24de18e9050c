// What the words ask for.
use hier_types::{SettingName, Settings};

/// What is to be done with the file.
#[derive(Clone, Copy, Debug, PartialEq, Eq)]
pub enum Command {
    /// The program of the file, over compressed memory.
    Run,
    /// The pages that its run left.
    Image,
    /// The places of the store that its run left.
    Layout,
    /// The program of the file, over flat memory.
    Flat,
    /// The accesses of the file.
    Trace,
    /// The sizes of the file's bytes.
    Survey,
    /// The generated file of this number.
    Gen { number: u32 },
    /// The run of the generated file of this number.
    Demo { number: u32 },
}

/// A command, the file that it is for, and the settings.
#[derive(Drop)]
pub struct Request {
    pub command: Command,
    pub file: String,
    pub settings: Settings,
}

/// Why words make no request.
#[derive(Clone, Copy, Debug, PartialEq, Eq)]
pub enum WordsFault {
    /// They are no command line.
    Usage,
    /// This value breaks its rule, and each one before it in the order of tests keeps its own.
    Setting(SettingName),
    NoMemory,
}
