use crate::told::{credited, gains, told, wrong_row};
use sections::{Chess, Section};
use std::test::Fail;

#[test]
fn entries(rt: HostRuntime) -> Result<(), Fail> {
    for (r, want) in [(2, (2, 0)), (1, (1, 1)), (0, (0, 2)), (3, (0, 0))] {
        assert_eq!(rt; gains::<Chess>(r)?, want);
    }
    let mut s = Chess::blank();
    assert_eq!(rt;
        wrong_row(
            |(a, b, r)| s.enter(a, b, r),
            &[
                ((6, 9, 4), (6, 1, 6)),
                ((6, 9, -1), (6, 1, 6)),
                ((3, 3, 9), (6, 9, 3)),
                ((3, 32, 9), (6, 9, 3)),
                ((32, 0, 9), (6, 9, 32)),
            ]
        ),
        None
    );
    assert_eq!(rt; told(s.figure(32)), (6, 9, 32));
    assert_eq!(rt; s.figure(6)?, 0);
    Ok(())
}

#[test]
fn a_win_near_the_top(rt: HostRuntime) -> Result<(), Fail> {
    let mut s: Chess = credited(1_000)?;
    s.debit(0, 2)?;
    s.enter(0, 2, 2)?;
    assert_eq!(rt; s.figure(0)?, 20_000);
    s.debit(0, 1)?;
    assert_eq!(rt;
        wrong_row(
            |(a, b, r)| s.enter(a, b, r),
            &[
                ((0, 2, 2), (6, 2, 0)),
                ((2, 0, 0), (6, 2, 0)),
                ((0, 2, 9), (6, 1, 0)),
                ((1, 0, 1), (6, 2, 1)),
                ((5, 1, 1), (6, 2, 1)),
            ]
        ),
        None
    );
    s.enter(0, 1, 3)?;
    assert_eq!(rt; s.figure(0)?, 19_999);
    assert_eq!(rt; s.figure(2)?, 0);
    Ok(())
}

#[test]
fn the_first_line_is_told_before_the_second(rt: HostRuntime) -> Result<(), Fail> {
    let mut s: Chess = credited(1_000)?;
    assert_eq!(rt; told(s.enter(0, 1, 1)), (6, 2, 0));
    assert_eq!(rt; told(s.enter(1, 0, 1)), (6, 2, 1));
    Ok(())
}

#[test]
fn amounts(rt: HostRuntime) -> Result<(), Fail> {
    let mut s: Chess = credited(1_000)?;
    assert_eq!(rt;
        wrong_row(
            |(line, amount)| s.credit(line, amount),
            &[
                ((3, 0), (6, 3, 3)),
                ((3, 1_001), (6, 3, 3)),
                ((3, -1), (6, 3, 3)),
                ((32, 5_000), (6, 9, 32)),
                ((1, 1), (6, 2, 1)),
                ((1, 1_001), (6, 3, 1)),
                ((3, 1), (0, 0, 0)),
                ((4, 1_000), (0, 0, 0)),
            ]
        ),
        None
    );
    assert_eq!(rt;
        wrong_row(
            |(line, amount)| s.debit(line, amount),
            &[
                ((0, 0), (6, 3, 0)),
                ((0, 1_001), (6, 3, 0)),
                ((0, -1), (6, 3, 0)),
                ((32, 0), (6, 9, 32)),
                ((5, 1_001), (6, 3, 5)),
                ((3, 2), (6, 4, 3)),
                ((3, 1), (0, 0, 0)),
                ((3, 1), (6, 4, 3)),
                ((0, 1_000), (0, 0, 0)),
            ]
        ),
        None
    );
    for (line, want) in [
        (0, 19_000),
        (1, 20_000),
        (2, 0),
        (3, 0),
        (4, 1_000),
        (31, 0),
    ] {
        assert_eq!(rt; s.figure(line)?, want);
    }
    Ok(())
}
