// The program, over whatever stands outside of it.
ghost use Rattle.std.specs.Prelude.{◌≡◌, IfErr, IfOk, string_bytes};
ghost use Rattle.hier_types.specs.Settings.{AreWithinRules};
ghost use Rattle.hier_types.specs.Streams.{use_of, went};
ghost use Rattle.hier_cli.specs.Files.{IsLoaded, IsLoadEnd, outside, shelf_use_of};
ghost use Rattle.hier_cli.specs.Notices.{IsTellable, code_of};
ghost use Rattle.hier_cli.specs.Requests.{Obeys, end_of_words, notice_of};
ghost use Rattle.hier_cli.specs.Top.{Finishes};

use crate::flat_runs::run_flat;
use crate::images::run_for_image;
use crate::layouts::run_for_layout;
use crate::notice::{Notice, write_notice};
use crate::runs::{run_demo, run_file};
use crate::status::Status;
use crate::surveys::{survey_file, write_demo};
use crate::traces::run_trace;
use hier_types::{Settings, Shelf, ShelfFault, Sink, Source};
use run_report::End;
use sim_words::{Command, Request, WordsFault, read_words};
use std::alloc::Global;
use std::thread::Threads;

/// The most bytes that a file may have.
const FILE_LIMIT: u64 = 67_108_864;

/// The bytes of a file.
fn load<S: Shelf>(alloc: Global, shelf: &mut S, name: &str) -> Result<Vec<u8>, End>
    ensures ok { IfOk result (λ file. IsLoaded (shelf_use_of S.files S.faults shelf.old shelf.new) name.now file.items) }
    ensures err { IfErr result (IsLoadEnd (shelf_use_of S.files S.faults shelf.old shelf.new) name.now) }
{
    match shelf.load(alloc, name, FILE_LIMIT) {
        Ok(file) => Ok(file),
        Err(ShelfFault::Failed) => Err(End::FileFault),
        Err(ShelfFault::TooLong) => Err(End::TooLong),
        Err(ShelfFault::NoMemory) => Err(End::NoMemory),
    }
}

/// Does what a request asks for, but for the note. An end alone comes where its file was not loaded.
fn obey<R: Threads + Sync, S: Shelf, I: Source, O: Sink>(
    rt: &R,
    alloc: Global,
    request: &Request,
    shelf: &mut S,
    input: &mut I,
    out: &mut O,
) -> Result<Notice, End>
    requires { AreWithinRules request.now.settings }
    ensures obeys { Obeys request.now.command (string_bytes request.now.file) request.now.settings
        (outside (shelf_use_of S.files S.faults shelf.old shelf.new) (went I.left I.faults O.written O.faults input.old input.new out.old out.new)) (notice_of result) }
    ensures tellable { IsTellable (notice_of result) }
{
    let settings = &request.settings;
    let name = request.file.as_str();
    match request.command {
        Command::Run => Ok(run_file(alloc, load(alloc, shelf, name)?, settings, input, out)),
        Command::Image => Ok(run_for_image(alloc, load(alloc, shelf, name)?, settings, input, out)),
        Command::Layout => Ok(run_for_layout(
            alloc,
            load(alloc, shelf, name)?,
            settings,
            input,
            out,
        )),
        Command::Flat => Ok(run_flat(alloc, load(alloc, shelf, name)?, settings, input, out)),
        Command::Survey => Ok(survey_file(
            rt,
            alloc,
            &load(alloc, shelf, name)?,
            settings.codec,
            out,
        )),
        Command::Gen { number } => Ok(write_demo(alloc, number, out)),
        Command::Demo { number } => Ok(run_demo(alloc, number, settings, input, out)),
        Command::Trace => Ok(run_trace(alloc, load(alloc, shelf, name)?, settings, input, out)),
    }
}

/// The end of words that make no request.
fn end_of_words(fault: WordsFault) -> End
    ensures { result ≡ end_of_words fault }
{
    match fault {
        WordsFault::Usage => End::Usage,
        WordsFault::Setting(name) => End::Setting { name },
        WordsFault::NoMemory => End::NoMemory,
    }
}

/// Does what the words after the program's name ask for: a command, a file and options, which `docs/FORMATS.md` has. A
/// program runs over the memory hierarchy, and its output, its end and what is taken of the input are those of the same
/// instructions over flat memory, where the shelf, the input and the output tell their bytes. The end is written to the
/// note, and with it what was counted.
pub fn hiersim<R: Threads + Sync, S: Shelf, I: Source, O: Sink, N: Sink>(
    rt: &R,
    alloc: Global,
    words: &[String],
    shelf: &mut S,
    input: &mut I,
    out: &mut O,
    note: &mut N,
) -> Status
    ensures finishes { Finishes words.now
        (outside (shelf_use_of S.files S.faults shelf.old shelf.new) (went I.left I.faults O.written O.faults input.old input.new out.old out.new))
        (use_of N.written N.faults note.old note.new) result.end }
    ensures code { result.code ≡ code_of result.end }
{
    let request = match read_words(alloc, words) {
        Ok(request) => request,
        Err(fault) => {
            let notice = Notice::Ended(end_of_words(fault));
            return Status::of(write_notice(alloc, notice, &Settings::default(), note));
        }
    };
    let notice = match obey(rt, alloc, &request, shelf, input, out) {
        Ok(notice) => notice,
        Err(end) => Notice::Ended(end),
    };
    Status::of(write_notice(alloc, notice, &request.settings, note))
}
