use super::*;
use hier_types::Totals;

#[test]
fn pages_come_and_go(rt: HostRuntime) {
    let packed = SizeRow {
        order: Some(0),
        exceptions: 3,
        encoded: 314,
    };
    let mut ledger = Ledger::new();
    ledger.add(&packed);
    ledger.add(&SizeRow::ZEROS);
    ledger.add(&SizeRow::PLAIN);
    let three = Totals {
        zero: 1,
        c512: 1,
        c4096: 1,
        exceptions: 3,
        encoded: 4410,
        blocks: 4608,
        ..Totals::default()
    };
    assert_eq!(rt; ledger.totals(), three);
    ledger.remove(&packed);
    let two = Totals {
        zero: 1,
        c4096: 1,
        encoded: 4096,
        blocks: 4096,
        ..Totals::default()
    };
    assert_eq!(rt; ledger.totals(), two);
}
