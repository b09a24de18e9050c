// The bytes of a page as lines.
ghost use Rattle.std.specs.Prelude.{◌≡◌};
ghost use Rattle.page_plan.specs.Pages.{lines_of_page};

use hier_types::Line;

/// The bytes of a page as its lines.
pub(crate) fn lines_in(bytes: &[u8; 4096]) -> [Line; 64]
    ensures { result ≡ lines_of_page bytes.now }
{
    let mut page = [[0; 64]; 64];
    for index in 0..64usize {
        page[index].copy_from_slice(&bytes[64 * index..64 * index + 64]);
    }
    page
}
