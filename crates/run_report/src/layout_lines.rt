// The lines of a layout.
ghost use Rattle.std.specs.Prelude.{◌≡◌, ◌+◌, ◌^◌, ◌<◌, ◌≤◌, ◌++◌, length, OnOk, OnErr};
ghost use Rattle.std.specs.Io.KnownBytes.{Appends};
ghost use Rattle.arrayvec.specs.ArrayString.{array_string_len};
ghost use Rattle.hier_types.specs.Causes.{HasCause};
ghost use Rattle.hier_types.specs.Outside.{AppendsFront};
ghost use Rattle.run_report.specs.LayoutLines as lines;

use crate::end::page_address;
use crate::text_line::TextLine;
use hier_types::{Failed, Geometry, PageNo, Sink};
use page_slots::{PlaceKind, PlaceRow};

/// Writes where a place of a page stands, in one call: the page's address, the line, the kind of place, its first byte in
/// the store, and how many bytes it has and uses. `base` is the first byte of the page's block in the store.
pub fn write_place<O: Sink>(
    geometry: Geometry,
    page: PageNo,
    base: u32,
    place: &PlaceRow,
    out: &mut O,
) -> Result<(), Failed>
    requires { base + place.now.at < 2 ^ 32 }
    ensures ok { OnOk result (Appends (O.written out.old) (O.written out.new) (lines.place_line geometry page.0 base place.now)) }
    ensures err { OnErr result (AppendsFront (O.written out.old) (O.written out.new) (lines.place_line geometry page.0 base place.now)) }
    ensures cause { HasCause (O.faults out.old) (O.faults out.new) result }
{
    let line = place_line(geometry, page, base, place);
    out.write(line.as_str().as_bytes())
}

fn place_line(geometry: Geometry, page: PageNo, base: u32, place: &PlaceRow) -> TextLine
    requires { base + place.now.at < 2 ^ 32 }
    ensures { result.text.bytes ≡ lines.place_line geometry page.0 base place.now }
{
    let mut line = TextLine::new();
    line.address(page_address(geometry, page));
    line.word(" ");
    put_line_number(&mut line, place.line);
    line.word(" ");
    line.word(kind_letter(place.kind));
    line.word(" ");
    line.address(base + u32::from(place.at));
    line.numbers(&[u64::from(place.room), u64::from(place.used)]);
    line.word("\n");
    line
}

/// Appends the number of a line in two digits, or that it is none.
fn put_line_number(text: &mut TextLine, line: u8)
    requires room { array_string_len text.old.text + 2 ≤ 192 }
    ensures text { text.new.text.bytes ≡ text.old.text.bytes ++ lines.line_number line }
    ensures len { array_string_len text.new.text ≡ array_string_len text.old.text + 2 }
{
    if line < 64 {
        text.two_digits(line);
    } else {
        text.word("--");
    }
}

/// The letter of what stands in a place.
fn kind_letter(kind: PlaceKind) -> &'static str
    ensures letter { result.now ≡ lines.kind_letter kind }
    ensures short { length result.now ≡ 1 }
{
    match kind {
        PlaceKind::Block => "b",
        PlaceKind::Meta => "m",
        PlaceKind::Slot => "s",
        PlaceKind::Exception => "x",
        PlaceKind::Raw => "r",
    }
}
