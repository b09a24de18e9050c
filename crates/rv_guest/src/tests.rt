use super::*;
use hier_types::{BytesSource, Geometry, NullSink};
use rv_core::Trap;
use rv_flat::FlatMemory;
use std::alloc::Global;
use std::test::Fail;

const SPAN: Geometry = Geometry { base: 16, pages: 1 };

/// The end of a run over a page of zeros, whose words are no instructions.
fn end_of(alloc: Global, entry: u32, budget: u64) -> Result<MachineEnd, Fail> {
    let mut program = Program {
        guest: Guest::start(entry, 0x1_0100, &SPAN),
        port: FlatMemory::new(alloc, SPAN).ok().ok_or("no memory")?,
    };
    let mut input = BytesSource::new(Vec::new(alloc), Vec::new(alloc));
    Ok(program.run(budget, &mut input, &mut NullSink))
}

#[test]
fn a_guest_begins_at_its_entry(rt: HostRuntime) {
    let guest = Guest::start(0x1_0004, 0x1_0100, &SPAN);
    assert_eq!(rt; guest.regs.pc, 0x1_0004);
    assert_eq!(rt; (guest.regs.x[1], guest.regs.x[2]), (0, 0x1_0fc0));
    assert_eq!(rt;
        (guest.brk.low, guest.brk.top, guest.brk.high),
        (0x1_0100, 0x1_0100, 0x1_0fc0)
    );
    assert_eq!(rt; guest.retired, 0);
}

#[test]
fn runs_end(rt: HostRuntime) -> Result<(), Fail> {
    for (entry, budget, cause, value) in [
        (0x1_0000, 1, 2, 0),
        (0x1_0002, 1, 0, 0x1_0002),
        (0x1_1000, 9, 1, 0x1_1000),
    ] {
        let pc = entry;
        assert_eq!(rt;
            end_of(rt.alloc(), entry, budget)?,
            MachineEnd::Trap(Trap { cause, pc, value })
        );
        assert_eq!(rt; end_of(rt.alloc(), entry, 0)?, MachineEnd::Budget);
    }
    Ok(())
}
