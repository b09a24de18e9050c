use super::*;
use hier_types::{Access, Geometry};
use std::test::Fail;

/// The addresses 00010000 to 00013FFF.
const SPAN: Geometry = Geometry { base: 16, pages: 4 };

#[test]
fn accesses_in_order(rt: HostRuntime) -> Result<(), Fail> {
    let trace = b"# three\nS 10000 4 12345678\r\n\nL 10000 2\nL 10003 1\r";
    let mut rows = TraceRows::new(trace, SPAN);
    for access in [
        Access::Store {
            at: 0x1_0000,
            width: 4,
            value: 0x1234_5678,
        },
        Access::Load {
            at: 0x1_0000,
            width: 2,
        },
        Access::Load {
            at: 0x1_0003,
            width: 1,
        },
    ] {
        assert_eq!(rt; rows.read_row(), Ok(Some(access)));
    }
    assert_eq!(rt; rows.read_row(), Ok(None));
    assert_eq!(rt; rows.read_row(), Ok(None));
    Ok(())
}

#[test]
fn a_fault_stays(rt: HostRuntime) -> Result<(), Fail> {
    let mut rows = TraceRows::new(b"L 10004 4\nL 10001 4\nL 10000 4\n", SPAN);
    let access = Access::Load {
        at: 0x1_0004,
        width: 4,
    };
    let fault = TraceFault {
        line: 2,
        kind: TraceKind::Align,
    };
    assert_eq!(rt; rows.read_row(), Ok(Some(access)));
    assert_eq!(rt; rows.read_row(), Err(fault));
    assert_eq!(rt; rows.read_row(), Err(fault));
    Ok(())
}

#[test]
fn traces_that_are_accepted(rt: HostRuntime) -> Result<(), Fail> {
    for (trace, accesses) in [
        ("", 0),
        ("\n\r\n\n", 0),
        ("S 10000 4 12345678\nL 10000 2\nL 10003 1\n", 3),
        ("L 10000 4\r\nL 00010000 4\r", 2),
        ("S 12aBc 4 0\nS 13fff 1 fF", 2),
        (
            "#\n# a comment may have more bytes than the sixty-four of another row\n",
            0,
        ),
        ("#L\nL 10000 1\n#\n\nL 10002 2\n", 2),
    ] {
        assert_eq!(rt; check(trace.as_bytes(), SPAN), Ok(accesses), "{trace}");
    }
    Ok(())
}

#[test]
fn each_kind_and_its_row(rt: HostRuntime) -> Result<(), Fail> {
    for (trace, line, kind) in [
        (
            "L 10000 4 123456789 123456789 123456789 123456789 123456789 12345",
            1,
            TraceKind::Long,
        ),
        (
            "x 10000 4 123456789 123456789 123456789 123456789 123456789 1234\r\n",
            1,
            TraceKind::Word,
        ),
        ("l 10000 4", 1, TraceKind::Word),
        (" L 10000 4", 1, TraceKind::Word),
        ("\r\r\n", 1, TraceKind::Word),
        ("L", 1, TraceKind::Fields),
        ("L  10000 4", 1, TraceKind::Fields),
        ("L 10000 4 0", 1, TraceKind::Fields),
        ("L 10000 4 ", 1, TraceKind::Fields),
        ("S 10000 4", 1, TraceKind::Fields),
        ("S  10000 4", 1, TraceKind::Number),
        ("L 000010000 4", 1, TraceKind::Number),
        ("L 1000g 3", 1, TraceKind::Number),
        ("L 10001 8", 1, TraceKind::Width),
        ("L 10000 4\r\r\n", 1, TraceKind::Width),
        ("S 10001 2 12345", 1, TraceKind::Value),
        ("S 10000 1 ", 1, TraceKind::Value),
        ("L 10000 4\nL 10001 4\n", 2, TraceKind::Align),
        ("#\n\r\nL 1 2\nL", 3, TraceKind::Align),
        ("L ffff 1", 1, TraceKind::Range),
        ("\nL 14000 4", 2, TraceKind::Range),
    ] {
        assert_eq!(rt;
            check(trace.as_bytes(), SPAN),
            Err(TraceFault { line, kind }),
            "{trace}"
        );
    }
    Ok(())
}
