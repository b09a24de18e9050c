ghost use Rattle.std.specs.Prelude.{◌≤◌, ◌+◌, length};

use crate::{move_part, read_part, write_part};

/// The bytes 1 to 6 after a write.
fn written(at: usize, bytes: &[u8]) -> [u8; 6]
    requires { at + length bytes.now ≤ 6 }
{
    let mut row = [1, 2, 3, 4, 5, 6];
    write_part(&mut row, at, bytes);
    row
}

/// The bytes 1 to 6 after a move.
fn moved(from: usize, count: usize, to: usize) -> [u8; 6]
    requires from { from + count ≤ 6 }
    requires to { to + count ≤ 6 }
{
    let mut row = [1, 2, 3, 4, 5, 6];
    move_part(&mut row, from, count, to);
    row
}

/// Three bytes 9 after a part of the bytes 1 to 6 was read to their front.
fn read(at: usize, count: usize) -> [u8; 3]
    requires inside { at + count ≤ 6 }
    requires most { count ≤ 3 }
{
    let mut into = [9, 9, 9];
    read_part(&[1, 2, 3, 4, 5, 6], at, count, &mut into);
    into
}

#[test]
fn a_write_changes_its_part_alone(rt: HostRuntime) {
    assert_eq!(rt; written(0, &[7, 8]), [7, 8, 3, 4, 5, 6]);
    assert_eq!(rt; written(3, &[7]), [1, 2, 3, 7, 5, 6]);
    assert_eq!(rt; written(4, &[7, 8]), [1, 2, 3, 4, 7, 8]);
    assert_eq!(rt; written(6, &[]), [1, 2, 3, 4, 5, 6]);
}

#[test]
fn a_move_copies_what_stood_there(rt: HostRuntime) {
    assert_eq!(rt; moved(4, 2, 0), [5, 6, 3, 4, 5, 6]);
    assert_eq!(rt; moved(2, 4, 1), [1, 3, 4, 5, 6, 6]);
    assert_eq!(rt; moved(1, 4, 2), [1, 2, 2, 3, 4, 5]);
    assert_eq!(rt; moved(6, 0, 0), [1, 2, 3, 4, 5, 6]);
}

#[test]
fn a_read_keeps_what_is_behind_it(rt: HostRuntime) {
    assert_eq!(rt; read(0, 3), [1, 2, 3]);
    assert_eq!(rt; read(4, 2), [5, 6, 9]);
    assert_eq!(rt; read(5, 1), [6, 9, 9]);
    assert_eq!(rt; read(6, 0), [9, 9, 9]);
}
