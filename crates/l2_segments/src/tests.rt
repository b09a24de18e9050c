ghost use Rattle.std.specs.Prelude.{◌≡◌, true, is_some};
ghost use Rattle.l2_segments.specs.Strings.{string_of};

use crate::Segments;

/// Whether the string under a tag is this byte, so many times.
fn is_run(set: &Segments, tag: u8, byte: u8, len: u8) -> bool
    requires { is_some (string_of set.now.texts tag) ≡ true }
{
    let mut copy = [0; 64];
    set.get(tag, &mut copy) == len
        && copy.iter().take_while(|&&read| read == byte).count() == len as usize
}

/// Two lines of room, filled; two strings leave, and a longer one comes for which the others have to move.
#[test]
fn strings_are_slid_together(rt: HostRuntime) {
    let Ok(mut set) = Segments::new(rt.alloc(), 2) else {
        panic!(rt; "no memory");
    };
    assert!(rt; set.place(0, &[10; 40]));
    assert!(rt; set.place(1, &[11; 24]));
    assert!(rt; set.place(2, &[12; 40]));
    assert!(rt; set.place(3, &[13; 24]));
    assert_eq!(rt; set.room(), 0);
    set.remove(0);
    set.remove(2);
    assert_eq!(rt; set.room(), 10);
    assert!(rt; set.place(0, &[14; 64]));
    assert_eq!(rt; set.room(), 2);
    assert!(rt; is_run(&set, 1, 11, 24) && is_run(&set, 3, 13, 24));
    assert!(rt; !set.place(2, &[15; 17]));
    assert_eq!(rt; set.room(), 2);
    assert!(rt; set.place(2, &[16; 16]));
    assert_eq!(rt; set.room(), 0);
    assert!(rt; is_run(&set, 0, 14, 64) && is_run(&set, 1, 11, 24));
    assert!(rt; is_run(&set, 2, 16, 16) && is_run(&set, 3, 13, 24));
}
