// One page of the bytes, as lines.
ghost use Rattle.std.specs.Prelude.{◌≡◌, ◌+◌, ◌^◌, ◌<◌, ◌≤◌, length};
ghost use Rattle.page_plan.specs.Pages.{page_of};
ghost use Rattle.sim_survey.specs.Filled.{line_at, page_count, lines_of_filled};

use hier_types::Line;

/// The 64 bytes from a place on, zeros past the end of the bytes.
fn line_from(bytes: &[u8], first: usize) -> Line
    requires { first + 64 < 2 ^ 64 }
    ensures { result ≡ line_at bytes.now first }
{
    let mut line = [0; 64];
    if first >= bytes.len() {
        return line;
    }
    let count = (bytes.len() - first).min(64);
    line[..count].copy_from_slice(&bytes[first..first + count]);
    line
}

/// The lines of a page.
pub(crate) fn page_at(bytes: &[u8], page: usize) -> [Line; 64]
    requires few { length bytes.now ≤ 67108864 }
    requires inside { page < page_count (length bytes.now) }
    ensures { result ≡ page_of (lines_of_filled bytes.now) page }
{
    let mut lines = [[0; 64]; 64];
    for index in 0..64usize {
        lines[index] = line_from(bytes, 4096 * page + 64 * index);
    }
    lines
}
