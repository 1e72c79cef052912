use sections::{Bridge, Cause, Chess, Fault, Section, line_sum};
use std::test::Fail;

#[test]
fn a_line_over_several_sheets(rt: HostRuntime) -> Result<(), Fail> {
    let mut one = Chess::blank();
    let mut two = Chess::blank();
    one.enter(0, 1, 2)?;
    two.enter(1, 0, 1)?;
    let sheets = [one, two, one];
    for (line, want) in [(0, 5), (1, 1), (2, 0)] {
        assert_eq!(rt; line_sum(&sheets, line)?, want);
    }
    let mut won = Bridge::blank();
    won.enter(2, 31, 4_000)?;
    assert_eq!(rt; line_sum(&[won, won], 31)?, -48);
    Ok(())
}

#[test]
fn a_line_that_no_sheet_has(rt: HostRuntime) -> Result<(), Fail> {
    let none: [Chess; 0] = [];
    assert_eq!(rt; line_sum(&none, 31)?, 0);
    assert_eq!(rt;
        line_sum(&none, 32),
        Err(Fault {
            cause: Cause::BadLines,
            line: 32,
        })
    );
    Ok(())
}
