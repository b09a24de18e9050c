// What one frame has to offer, as a function of the byte of its units in use.
ghost use Rattle.std.specs.Prelude.{◌≡◌, ◌≤◌, ◌+◌, ◌^◌};
ghost use Rattle.buddy_frames.specs.Units.{run_bits};
ghost use Rattle.buddy_frames.specs.FrameByte.{AreStarts};

/// The bits at which the frame's free blocks of an order begin.
pub(crate) fn block_starts(byte: u8, order: u8) -> u8
    requires { order ≤ 3 }
    ensures { AreStarts byte order result }
{
    let free = !byte;
    let pairs = free & (free >> 1) & 0x55;
    let fours = pairs & (pairs >> 2) & 0x11;
    let whole = fours & (fours >> 4) & 1;
    match order {
        0 => free & !(pairs | (pairs << 1)),
        1 => pairs & !(fours | (fours << 2)),
        2 => fours & !(whole | (whole << 4)),
        _ => whole,
    }
}

/// The bits of a run of `2 ^ order` units that begins at unit `at` of the frame.
pub(crate) fn run_bits_at(order: u8, at: u32) -> u8
    requires known { order ≤ 3 }
    requires within { at + 2 ^ order ≤ 8 }
    ensures { result ≡ run_bits order at }
{
    match order {
        0 => 1u8 << at,
        1 => 3u8 << at,
        2 => 15u8 << at,
        _ => 255,
    }
}
