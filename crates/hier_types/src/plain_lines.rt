// A layer of plain lines: the first memory, and one that refuses at will.
ghost use Rattle.std.specs.Prelude.{◌≡◌, [], replicate, IfOk, Some, None};
ghost use Rattle.hier_types.specs.Lines.{zero_line};
ghost use Rattle.hier_types.specs.Plain.{PlainAnswers, PlainRead, PlainWrite};

use crate::faults::{NoMemory, NoSpace};
use crate::layer::Layer;
use crate::units::{Line, LineNo, PAGE_LINES, PageNo};
use std::alloc::Global;
use std::marker::Model;

/// Lines that are kept as they are, zero at first. The calls of `read` and `write` whose numbers, from 0, are listed
/// refuse, with the line's page and order 0.
#[derive(Drop)]
pub struct PlainLines {
    lines: Vec<Line>,
    refuse: Vec<u64>,
    calls: u64,
    stops: u64,
    last: Option<NoSpace>,
}

impl Model for PlainLines {
    ghost use Rattle.std.specs.Prelude.{◌^◌, ◌<◌, length};
    ghost use Rattle.hier_types.specs.Lines.{AreLines};
    ghost use Rattle.hier_types.specs.Plain.{Plain};

    ghost Value = { Plain };

    ghost view = { λ p. record { lines = p.lines.items; refuse = p.refuse.items; calls = p.calls; stops = p.stops; last = p.last } };

    ghost invariant = { λ p. (length p.lines.items < 2 ^ 32) × AreLines p.lines.items };
}

impl PlainLines {
    /// So many lines of zeros.
    pub fn new(alloc: Global, lines: u32, refuse: Vec<u64>) -> Result<Self, NoMemory>
        ensures { IfOk result (λ p. p ≡ record { lines = replicate lines zero_line; refuse = refuse.items; calls = 0; stops = 0; last = None }) }
    {
        let mut zeros: Vec<Line> = Vec::with_capacity(alloc, lines as usize)?;
        for count in 0..lines {
            zeros.push([0; 64])?;
        }
        Ok(PlainLines {
            lines: zeros,
            refuse,
            calls: 0,
            stops: 0,
            last: None,
        })
    }

    /// Counts one more call, on this line, and refuses it where it is listed.
    fn admit(&mut self, line: LineNo) -> Result<(), NoSpace>
        ensures { PlainAnswers self.old line.0 result self.old.lines self.new }
    {
        let refused = self.refuse.contains(&self.calls);
        self.calls = self.calls.saturating_add(1);
        if refused {
            let refusal = NoSpace {
                page: PageNo(line.0 / PAGE_LINES),
                order: 0,
            };
            self.stops = self.stops.saturating_add(1);
            self.last = Some(refusal);
            return Err(refusal);
        }
        Ok(())
    }
}

impl Layer for PlainLines {
    ghost content = { λ p. p.lines };

    ghost stops = { λ p. p.stops };

    ghost crowded = { λ p n. p.last ≡ Some n };

    ghost did_read = { PlainRead };

    ghost did_write = { PlainWrite };

    fn lines(&self) -> u32 {
        self.lines.len() as u32
    }

    fn read(&mut self, line: LineNo, into: &mut Line) -> Result<(), NoSpace> {
        if let Err(refusal) = self.admit(line) {
            return Err(refusal);
        }
        *into = self.lines[line.0 as usize];
        Ok(())
    }

    fn write(&mut self, line: LineNo, from: &Line) -> Result<(), NoSpace> {
        if let Err(refusal) = self.admit(line) {
            return Err(refusal);
        }
        self.lines[line.0 as usize] = *from;
        Ok(())
    }

    fn view(&self, line: LineNo, into: &mut Line) {
        *into = self.lines[line.0 as usize];
    }
}
