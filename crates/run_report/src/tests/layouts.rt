// The lines of layouts.
use super::note;
use crate::write_place;
use hier_types::{Geometry, PageNo};
use page_slots::{PlaceKind, PlaceRow};
use std::test::Fail;

#[test]
fn each_place_has_its_line(rt: HostRuntime) -> Result<(), Fail> {
    let alloc = rt.alloc();
    let geometry = Geometry { base: 16, pages: 3 };
    for (page, base, kind, line, at, room, used, text) in [
        (
            0,
            0,
            PlaceKind::Block,
            64,
            0,
            512,
            512,
            "00010000 -- b 00000000 512 512\n",
        ),
        (
            0,
            0,
            PlaceKind::Meta,
            64,
            0,
            64,
            64,
            "00010000 -- m 00000000 64 64\n",
        ),
        (
            0,
            0,
            PlaceKind::Exception,
            0,
            320,
            64,
            64,
            "00010000 00 x 00000140 64 64\n",
        ),
        (
            0,
            0,
            PlaceKind::Slot,
            1,
            68,
            4,
            2,
            "00010000 01 s 00000044 4 2\n",
        ),
        (
            2,
            0xfff_f000,
            PlaceKind::Raw,
            63,
            4032,
            64,
            64,
            "00012000 63 r 0fffffc0 64 64\n",
        ),
    ] {
        let place = PlaceRow {
            kind,
            line,
            at,
            room,
            used,
        };
        let mut out = note(alloc, Vec::new(alloc))?;
        assert_eq!(rt;
            write_place(geometry, PageNo(page), base, &place, &mut out),
            Ok(())
        );
        assert_eq!(rt; out.bytes(), text.as_bytes());
    }
    Ok(())
}
