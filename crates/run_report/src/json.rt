// A report as JSON.
ghost use Rattle.std.specs.Prelude.{◌≡◌, ◌≢◌, IfOk, OnOk};
ghost use Rattle.serde_json.specs.Data.{put, string};
ghost use Rattle.serde_json.specs.View.{view, members_view};
ghost use Rattle.run_report.specs.declared.end.End.TheVariants.{NoteFault};
ghost use Rattle.run_report.specs.Json as json;
ghost use Rattle.run_report.specs.ReportLines as lines;

use crate::note::put_end;
use crate::report::{Counts, Report, Settled};
use crate::report_lines::put_settled;
use crate::text_line::TextLine;
use crate::totals::{classes, ratio};
use hier_types::{Geometry, NoMemory, Totals};
use serde_json::{Map, Value};
use std::alloc::Global;

/// The lines of a report by their words, as one object of JSON without spaces, and a line feed.
pub fn to_json(alloc: Global, report: &Report, geometry: &Geometry) -> Result<Vec<u8>, NoMemory>
    requires { lines.CanBeTold report.now }
    ensures { IfOk result (λ text. text.items ≡ json.json_text geometry.now report.now) }
{
    let value = report_value(alloc, report, geometry)?;
    let mut text = value.to_string(alloc)?.into_bytes();
    text.push(b'\n')?;
    Ok(text)
}

fn report_value(alloc: Global, report: &Report, geometry: &Geometry) -> Result<Value, NoMemory>
    requires { lines.CanBeTold report.now }
    ensures { IfOk result (λ value. view value ≡ json.report_data geometry.now report.now) }
{
    let mut members = Members {
        alloc,
        map: Map::new(alloc),
    };
    let mut settle = TextLine::new();
    put_settled(&mut settle, &report.settled, geometry);
    members.text("settle", &settle)?;
    members.counts(&report.counts)?;
    members.number("retired", report.retired)?;
    let mut end = TextLine::new();
    put_end(&mut end, &report.end);
    members.text("end", &end)?;
    members.settled(&report.settled)?;
    Ok(Value::Object(members.map))
}

/// The members of an object that is being made. Each call puts the last line first, as the definitions do; the object
/// has them by their keys.
#[derive(Drop)]
struct Members {
    alloc: Global,
    map: Map<String, Value>,
}

impl Members {
    fn counts(&mut self, counts: &Counts) -> Result<(), NoMemory>
        ensures { OnOk result (members_view self.new.map.entries
            ≡ json.counts_members counts.now (members_view self.old.map.entries)) }
    {
        let l1 = &counts.l1;
        let l2 = &counts.l2;
        let pages = &counts.pages;
        self.number("tidy", pages.tidy_turns)?;
        self.numbers("turns", &[pages.mover_turns, counts.cleaner_turns])?;
        self.numbers("meta", &[pages.meta_hits, pages.meta_misses])?;
        self.numbers("pages", &[pages.reads, pages.writes])?;
        self.numbers("l2", &[l2.reads, l2.read_hits, l2.writes, l2.write_hits])?;
        self.numbers("l1", &[l1.hits, l1.misses, l1.write_backs])
    }

    fn settled(&mut self, settled: &Settled) -> Result<(), NoMemory>
        requires { lines.HasBlocksIfDone settled.now }
        ensures { OnOk result (members_view self.new.map.entries
            ≡ json.settled_members settled.now (members_view self.old.map.entries)) }
    {
        match settled {
            Settled::Done(totals) => self.totals(totals),
            Settled::Space(_) => Ok(()),
        }
    }

    fn totals(&mut self, totals: &Totals) -> Result<(), NoMemory>
        requires { lines.HasBlocks totals.now }
        ensures { OnOk result (members_view self.new.map.entries
            ≡ json.totals_members totals.now (members_view self.old.map.entries)) }
    {
        self.number("ratio", ratio(totals))?;
        self.number("blocks", totals.blocks)?;
        self.number("encoded", totals.encoded)?;
        self.number("exceptions", totals.exceptions)?;
        self.numbers("classes", &classes(totals))
    }

    fn text(&mut self, key: &str, text: &TextLine) -> Result<(), NoMemory>
        ensures { OnOk result (members_view self.new.map.entries
            ≡ put key.now (string text.now.text.bytes) (members_view self.old.map.entries)) }
    {
        let value = Value::try_from_str(self.alloc, text.as_str())?;
        Ok(serde_json::put(&mut self.map, self.alloc, key, value)?)
    }

    fn number(&mut self, key: &str, n: u64) -> Result<(), NoMemory>
        ensures { OnOk result (members_view self.new.map.entries
            ≡ put key.now (json.one n) (members_view self.old.map.entries)) }
    {
        Ok(serde_json::put(&mut self.map, self.alloc, key, Value::from(n))?)
    }

    fn numbers(&mut self, key: &str, numbers: &[u64]) -> Result<(), NoMemory>
        ensures { OnOk result (members_view self.new.map.entries
            ≡ put key.now (json.many numbers.now) (members_view self.old.map.entries)) }
    {
        let value = array(self.alloc, numbers)?;
        Ok(serde_json::put(&mut self.map, self.alloc, key, value)?)
    }
}

fn array(alloc: Global, numbers: &[u64]) -> Result<Value, NoMemory>
    ensures { IfOk result (λ value. view value ≡ json.many numbers.now) }
{
    let mut values = Vec::new(alloc);
    for number in numbers {
        values.push(Value::from(*number))?;
    }
    Ok(Value::Array(values))
}
