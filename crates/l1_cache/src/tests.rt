ghost use Rattle.std.specs.Prelude.{◌≡◌};

use crate::L1;
use hier_types::{Errand, Geometry, L1Counts, Layer, LineNo, NoMemory, PlainLines, Port};
use std::alloc::Global;

/// One set of two lines over a page of plain lines, which refuse the listed calls.
fn two_ways(alloc: Global, refuse: &[u64]) -> Result<L1<PlainLines>, NoMemory> {
    let span = Geometry { base: 16, pages: 1 };
    let below = PlainLines::new(alloc, 64, refuse.to_vec(alloc)?)?;
    L1::new(alloc, below, span, 1, 2)
}

/// Touches a line, changes its first byte where there is one to put, and gives the byte that stands there then.
fn access(level: &mut L1<PlainLines>, line: u32, byte: Option<u8>) -> Option<u8> {
    let span = level.span();
    let at = line.saturating_mul(64).saturating_add(span.first());
    if !span.has(at) || level.touch(span.line_of(at)).is_err() {
        return None;
    }
    if let Some(byte) = byte {
        level.poke(at, byte);
    }
    Some(level.peek(at))
}

/// The first byte of a line.
fn byte_of<B: Layer>(layer: &B, line: u32) -> Option<u8> {
    if line >= layer.lines() {
        return None;
    }
    let mut bytes = [0; 64];
    layer.view(LineNo(line), &mut bytes);
    Some(bytes[0])
}

#[test]
fn the_least_recent_line_leaves(rt: HostRuntime) {
    let Ok(mut level) = two_ways(rt.alloc(), &[]) else {
        panic!(rt; "no memory");
    };
    let rows = [
        (0u32, None, 0u8),
        (1, Some(9), 9),
        (0, None, 0),
        (2, None, 0),
        (1, None, 9),
    ];
    for (line, byte, there) in rows {
        assert_eq!(rt; access(&mut level, line, byte), Some(there));
    }
    let counts = L1Counts {
        hits: 1,
        misses: 4,
        write_backs: 1,
    };
    assert_eq!(rt; level.counts(), counts);
}

/// For each refused call: the touch that it stops, and the first byte of line 1 below it then.
#[test]
fn a_refused_touch_can_be_made_again(rt: HostRuntime) {
    let touches = [(0u32, None), (1, Some(9u8)), (2, None), (0, None)];
    let rows = [
        (0u64, 0u32, 0u8),
        (1, 1, 0),
        (2, 2, 0),
        (3, 0, 0),
        (4, 0, 9),
    ];
    for (refused, stopped, below) in rows {
        let Ok(mut level) = two_ways(rt.alloc(), &[refused]) else {
            panic!(rt; "no memory");
        };
        let mut stops = 0u32;
        for (line, byte) in touches {
            if access(&mut level, line, byte).is_some() {
                continue;
            }
            stops = stops.saturating_add(1);
            assert_eq!(rt; line, stopped);
            assert_eq!(rt; byte_of(level.below(), 1), Some(below));
            assert!(rt; access(&mut level, line, byte).is_some());
        }
        assert_eq!(rt; stops, 1);
        let counts = L1Counts {
            hits: 0,
            misses: 4,
            write_backs: 1,
        };
        assert_eq!(rt; level.counts(), counts);
        assert_eq!(rt; byte_of(&level, 1), Some(9));
    }
}

/// For each refused call of a flush: the first bytes of lines 0 and 1 below it then.
#[test]
fn a_flush_writes_the_least_recent_first(rt: HostRuntime) {
    for (refused, first, second) in [(2u64, 0u8, 0u8), (3, 5, 0)] {
        let Ok(mut level) = two_ways(rt.alloc(), &[refused]) else {
            panic!(rt; "no memory");
        };
        assert_eq!(rt; access(&mut level, 0, Some(5)), Some(5));
        assert_eq!(rt; access(&mut level, 1, Some(9)), Some(9));
        assert!(rt; level.flush().is_err());
        assert_eq!(rt; byte_of(level.below(), 0), Some(first));
        assert_eq!(rt; byte_of(level.below(), 1), Some(second));
        assert!(rt; level.flush().is_ok());
        assert_eq!(rt; byte_of(level.below(), 0), Some(5));
        assert_eq!(rt; byte_of(level.below(), 1), Some(9));
        assert_eq!(rt; level.counts().write_backs, 0);
    }
}

#[test]
fn whole_lines_are_read_and_written(rt: HostRuntime) {
    let Ok(mut level) = two_ways(rt.alloc(), &[]) else {
        panic!(rt; "no memory");
    };
    let mut bytes = [0; 64];
    assert_eq!(rt; level.lines(), 64);
    assert!(rt; level.write(LineNo(3), &[7; 64]).is_ok());
    assert_eq!(rt; byte_of(level.below(), 3), Some(0));
    assert!(rt; level.read(LineNo(3), &mut bytes).is_ok());
    assert_eq!(rt; bytes, [7; 64]);
    assert_eq!(rt; (level.counts().hits, level.counts().misses), (1, 1));
}

/// Work that asks the layer below for its number of lines.
#[derive(Drop)]
struct CountLines {
    lines: u32,
}

impl Errand<PlainLines> for CountLines {
    ghost may_go = { λ _ _. Unit {0} };

    ghost did_go = { λ _ before _ after. after ≡ before };

    fn go(&mut self, below: &mut PlainLines) {
        self.lines = below.lines();
    }
}

#[test]
fn an_errand_reaches_the_layer_below(rt: HostRuntime) {
    let Ok(mut level) = two_ways(rt.alloc(), &[]) else {
        panic!(rt; "no memory");
    };
    let mut errand = CountLines { lines: 0 };
    level.below_do(&mut errand);
    assert_eq!(rt; errand.lines, 64);
}
