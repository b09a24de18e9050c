// The memory with the image in it.
ghost use Rattle.std.specs.Prelude.{Err, IfErr, OnOk};
ghost use Rattle.page_store.specs.Calls.{PlacesPage};
ghost use Rattle.page_store.specs.Store.{HasZero};
ghost use Rattle.hier_machine.specs.Placed.{AwaitsImage, PlacesBytes, PlacesImage};

use elf_image::Image;
use hier_types::{NoSpace, PageNo};
use page_store::Pages;

/// Places the pages of an image that are not zero, in rising order, up to one that finds no room.
pub fn place_image(store: &mut Pages, image: &Image, pages: u32) -> Result<(), NoSpace>
    requires { AwaitsImage image.now pages store.old }
    ensures { PlacesImage image.now pages store.old result store.new }
{
    let mut bytes = [0; 4096];
    for number in 0..pages {
        image.page(PageNo(number), &mut bytes);
        if let Err(refusal) = place_page(store, PageNo(number), &bytes) {
            return Err(refusal);
        }
    }
    Ok(())
}

/// Places a page, where it is not zero.
fn place_page(store: &mut Pages, page: PageNo, bytes: &[u8; 4096]) -> Result<(), NoSpace>
    requires { HasZero store.old page.0 }
    ensures ok { OnOk result (PlacesBytes page.0 bytes.now store.old store.new) }
    ensures err { IfErr result (λ refusal. PlacesPage store.old page.0 bytes.now (Err refusal) store.new) }
{
    if *bytes == [0; 4096] {
        return Ok(());
    }
    store.place_page(page, bytes)
}
