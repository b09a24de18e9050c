// The lines of a note.
ghost use Rattle.std.specs.Prelude.{◌≡◌, ◌≢◌, ◌+◌, ◌≤◌, ◌++◌, length, codes, decimal, OnOk, OnErr};
ghost use Rattle.std.specs.Io.KnownBytes.{Appends};
ghost use Rattle.arrayvec.specs.ArrayString.{array_string_len};
ghost use Rattle.hier_types.specs.Causes.{HasCause};
ghost use Rattle.hier_types.specs.Outside.{AppendsFront};
ghost use Rattle.run_report.specs.declared.end.End.TheVariants.{Exit, BadImage, BadTrace, Space, NoteFault};
ghost use Rattle.run_report.specs.Texts as texts;

use crate::end::End;
use crate::lines::write_lines;
use crate::names::{kind_name, setting_name, trace_kind_name};
use crate::text_line::TextLine;
use elf_image::ImageFault;
use hier_types::{Failed, Sink};
use rv_core::Trap;
use trace_reader::TraceFault;

/// Writes how a run ended and, where a number is given, how many instructions retired. Each line is one write, and
/// after one that failed there is no other: then a front of the text stands on the note.
pub fn write_end<N: Sink>(end: &End, retired: Option<u64>, note: &mut N) -> Result<(), Failed>
    requires { end.now ≢ NoteFault }
    ensures ok { OnOk result (Appends (N.written note.old) (N.written note.new) (texts.note_text end.now retired)) }
    ensures err { OnErr result (AppendsFront (N.written note.old) (N.written note.new) (texts.note_text end.now retired)) }
    ensures cause { HasCause (N.faults note.old) (N.faults note.new) result }
{
    match retired {
        None => write_lines(&[end_line(end)], note),
        Some(count) => write_lines(&[end_line(end), retired_line(count)], note),
    }
}

pub(crate) fn end_line(end: &End) -> TextLine
    requires { end.now ≢ NoteFault }
    ensures { result.text.bytes ≡ texts.end_line end.now }
{
    let mut line = TextLine::new();
    line.word("end ");
    put_end(&mut line, end);
    line.word("\n");
    line
}

pub(crate) fn retired_line(count: u64) -> TextLine
    ensures { result.text.bytes ≡ texts.retired_line count }
{
    let mut line = TextLine::new();
    line.word("retired ");
    line.number(count);
    line.word("\n");
    line
}

/// Appends what is told of an end, at most 124 bytes.
pub(crate) fn put_end(line: &mut TextLine, end: &End)
    requires own { end.now ≢ NoteFault }
    requires room { array_string_len line.old.text + 124 ≤ 192 }
    ensures text { line.new.text.bytes ≡ line.old.text.bytes ++ texts.end_text end.now }
    ensures len { array_string_len line.new.text ≤ array_string_len line.old.text + 124 }
{
    match end {
        End::Done => line.word("done"),
        End::Exit { status } => put_exit(line, *status),
        End::Usage => line.word("usage: hiersim COMMAND FILE [options]"),
        End::Setting { name } => {
            line.word("bad setting ");
            line.word(setting_name(*name));
        }
        End::FileFault => line.word("file failed"),
        End::TooLong => line.word("file too long"),
        End::BadImage { fault } => put_image_fault(line, *fault),
        End::BadTrace { fault } => put_trace_fault(line, *fault),
        End::Trap(trap) => put_trap(line, *trap),
        End::Budget => line.word("budget"),
        End::Space { at, order, free } => put_space(line, *at, *order, free),
        End::NoRoom { at, order } => put_refusal(line, "noroom ", *at, *order),
        End::InFault => line.word("input failed"),
        End::OutFault => line.word("output failed"),
        End::NoteFault => unreachable!(),
        End::NoMemory => line.word("no memory"),
    }
}

fn put_exit(line: &mut TextLine, status: u32)
    requires room { array_string_len line.old.text + 25 ≤ 192 }
    ensures text { line.new.text.bytes ≡ line.old.text.bytes ++ texts.end_text (Exit status) }
    ensures len { array_string_len line.new.text ≤ array_string_len line.old.text + 25 }
{
    line.word("exit ");
    line.number(u64::from(status));
}

fn put_trap(line: &mut TextLine, trap: Trap)
    requires room { array_string_len line.old.text + 43 ≤ 192 }
    ensures text { line.new.text.bytes ≡ line.old.text.bytes ++ texts.end_text (End.Trap trap) }
    ensures len { array_string_len line.new.text ≤ array_string_len line.old.text + 43 }
{
    line.word("trap ");
    line.number(u64::from(trap.cause));
    line.word(" ");
    line.address(trap.pc);
    line.word(" ");
    line.address(trap.value);
}

fn put_space(line: &mut TextLine, at: u32, order: u8, free: &[u32; 4])
    requires room { array_string_len line.old.text + 124 ≤ 192 }
    ensures text { line.new.text.bytes ≡ line.old.text.bytes ++ texts.end_text (Space at order free.now) }
    ensures len { array_string_len line.new.text ≤ array_string_len line.old.text + 124 }
{
    put_refusal(line, "space ", at, order);
    line.word(" free");
    line.numbers(&free.map(u64::from));
}

/// Appends a word, the address of a page and the order that it was refused.
pub(crate) fn put_refusal(line: &mut TextLine, word: &str, at: u32, order: u8)
    requires room { array_string_len line.old.text + length word.now + 29 ≤ 192 }
    ensures text { line.new.text.bytes ≡ line.old.text.bytes ++ (word.now ++ texts.address at ++ codes " " ++ decimal order) }
    ensures len { array_string_len line.new.text ≤ array_string_len line.old.text + length word.now + 29 }
{
    line.word(word);
    line.address(at);
    line.word(" ");
    line.number(u64::from(order));
}

fn put_image_fault(line: &mut TextLine, fault: ImageFault)
    requires room { array_string_len line.old.text + 43 ≤ 192 }
    ensures text { line.new.text.bytes ≡ line.old.text.bytes ++ texts.end_text (BadImage fault) }
    ensures len { array_string_len line.new.text ≤ array_string_len line.old.text + 43 }
{
    line.word("bad image ");
    line.word(kind_name(fault.kind));
    line.word(" ");
    put_header(line, fault.header);
}

/// Appends a program header's number, or that there is none.
fn put_header(line: &mut TextLine, header: Option<u16>)
    requires room { array_string_len line.old.text + 20 ≤ 192 }
    ensures text { line.new.text.bytes ≡ line.old.text.bytes ++ texts.header_text header }
    ensures len { array_string_len line.new.text ≤ array_string_len line.old.text + 20 }
{
    match header {
        None => line.word("-"),
        Some(number) => line.number(u64::from(number)),
    }
}

fn put_trace_fault(line: &mut TextLine, fault: TraceFault)
    requires room { array_string_len line.old.text + 37 ≤ 192 }
    ensures text { line.new.text.bytes ≡ line.old.text.bytes ++ texts.end_text (BadTrace fault) }
    ensures len { array_string_len line.new.text ≤ array_string_len line.old.text + 37 }
{
    line.word("bad trace ");
    line.number(fault.line);
    line.word(" ");
    line.word(trace_kind_name(fault.kind));
}
