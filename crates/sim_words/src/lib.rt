//! The command line of the simulator: a command, a file and options. Contracts see the words as texts, a request as a
//! function of the values that the words name, and any other spelling as the matches that `clap` states for it. It
//! opens no file and prints nothing.
#![tactic(auto)]

mod command_line;
mod read;
mod request;
#[cfg(test)]
mod tests;
mod values;

pub use read::read_words;
pub use request::{Command, Request, WordsFault};
