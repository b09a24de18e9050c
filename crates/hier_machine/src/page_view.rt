// The bytes of a page of a memory of lines.
ghost use Rattle.std.specs.Prelude.{◌≡◌, ◌<◌, ◌≤◌, ◌+◌, ◌*◌, ◌++◌, length, take, drop};
ghost use Rattle.hier_types.specs.Lines.{flatten};

use hier_types::{LINE_BYTES, Layer, Line, LineNo, PAGE_LINES, PageNo};

/// The bytes of a page of the layer, which stays as it is.
pub fn view_page<B: Layer>(layer: &B, page: PageNo, into: &mut [u8; 4096])
    requires inside { 64 * page.0 + 64 ≤ length (B.content layer.now) }
    ensures { into.new ≡ take 4096 (drop (4096 * page.0) (flatten (B.content layer.now))) }
{
    // With their number a layer tells that its lines are whole.
    let _count = layer.lines();
    let mut line = [0; 64];
    for index in 0..PAGE_LINES {
        layer.view(LineNo(page.0 * PAGE_LINES + index), &mut line);
        put_line(into, index, &line);
    }
}

/// Puts a line to its place in a page.
fn put_line(into: &mut [u8; 4096], index: u32, line: &Line)
    requires { index < 64 }
    ensures len { length into.new ≡ 4096 }
    ensures front { take (64 * (index + 1)) into.new ≡ take (64 * index) into.old ++ line.now }
{
    let at = (index * LINE_BYTES) as usize;
    into[at..at + 64].copy_from_slice(line);
}
