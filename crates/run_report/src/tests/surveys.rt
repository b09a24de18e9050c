// Surveys.
use super::note;
use crate::write_survey;
use hier_types::Totals;
use std::test::Fail;

#[test]
fn a_survey_has_seven_lines(rt: HostRuntime) -> Result<(), Fail> {
    let alloc = rt.alloc();
    let totals = Totals {
        zero: 1,
        c512: 1,
        exceptions: 3,
        encoded: 314,
        blocks: 512,
        ..Totals::default()
    };
    let mut out = note(alloc, Vec::new(alloc))?;
    assert_eq!(rt; write_survey(&totals, &mut out), Ok(()));
    let text =
        "pages 2\nzero 1\nclasses 1 0 0 0\nexceptions 3\nencoded 314\nblocks 512\nratio 800\n";
    assert_eq!(rt; out.bytes(), text.as_bytes());
    Ok(())
}

#[test]
fn no_page_has_the_ratio_zero(rt: HostRuntime) -> Result<(), Fail> {
    let alloc = rt.alloc();
    let mut out = note(alloc, Vec::new(alloc))?;
    assert_eq!(rt; write_survey(&Totals::default(), &mut out), Ok(()));
    let text = "pages 0\nzero 0\nclasses 0 0 0 0\nexceptions 0\nencoded 0\nblocks 0\nratio 0\n";
    assert_eq!(rt; out.bytes(), text.as_bytes());
    Ok(())
}
