//! The program: words, a file and streams in, a status out. Contracts see what stands outside as files and bytes that
//! are told or not, and give each end its cause by the flat run of the file's program. It knows no cache and no page.
#![tactic(auto)]

mod adapters;
mod dropped_runs;
mod flat_runs;
mod images;
mod layouts;
mod notice;
mod runs;
mod status;
mod surveys;
#[cfg(test)]
mod tests;
mod top;
mod traces;

use adapters::{FileShelf, StreamSink, StreamSource, SystemFiles};
use run_report::End;
pub use status::Status;
use std::process::ExitCode;
use std::{env, io};
pub use top::hiersim;

/// The words after the program's name, or none where one is not text.
fn words(rt: &HostRuntime) -> Result<Vec<String>, io::ErrorKind> {
    let mut words = Vec::new(rt.alloc());
    let args = match env::args(rt) {
        Ok(args) => args,
        Err(error) => return Err(error.kind()),
    };
    for word in args.skip(1) {
        if words.push(word).is_err() {
            return Err(io::ErrorKind::OutOfMemory);
        }
    }
    Ok(words)
}

fn main(rt: HostRuntime) -> ExitCode {
    let words = match words(&rt) {
        Ok(words) => words,
        Err(io::ErrorKind::OutOfMemory) => return ExitCode::from(Status::of(End::NoMemory).code),
        Err(_) => Vec::new(rt.alloc()),
    };
    let status = hiersim(
        &rt,
        rt.alloc(),
        &words,
        &mut FileShelf::new(SystemFiles::new(&rt)),
        &mut StreamSource::new(rt.stdin()),
        &mut StreamSink::new(rt.stdout()),
        &mut StreamSink::new(rt.stderr()),
    );
    ExitCode::from(status.code)
}
