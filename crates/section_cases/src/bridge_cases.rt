use crate::told::{credited, gains, told, wrong_row};
use sections::{Bridge, Section};
use std::test::Fail;

#[test]
fn each_step_of_the_scale_from_both_sides(rt: HostRuntime) -> Result<(), Fail> {
    let limits: [u16; 24] = [
        10, 40, 80, 120, 160, 210, 260, 310, 360, 420, 490, 590, 740, 890, 1090, 1290, 1490, 1740,
        1990, 2240, 2490, 2990, 3490, 3990,
    ];
    for (imps, limit) in (0u8..24).zip(limits) {
        let imps = i32::from(imps);
        let limit = i32::from(limit);
        assert_eq!(rt; gains::<Bridge>(limit)?, (imps, -imps));
        assert_eq!(rt; gains::<Bridge>(-limit)?, (-imps, imps));
        let more = imps + 1;
        let past = limit + 10;
        assert_eq!(rt; gains::<Bridge>(past)?, (more, -more));
        assert_eq!(rt; gains::<Bridge>(-past)?, (-more, more));
    }
    Ok(())
}

#[test]
fn entries(rt: HostRuntime) -> Result<(), Fail> {
    for (r, want) in [(0, (0, 0)), (15_000, (24, -24)), (-15_000, (-24, 24))] {
        assert_eq!(rt; gains::<Bridge>(r)?, want);
    }
    let mut s = Bridge::blank();
    assert_eq!(rt;
        wrong_row(
            |(a, b, r)| s.enter(a, b, r),
            &[
                ((4, 5, 15_010), (6, 1, 4)),
                ((4, 5, -15_010), (6, 1, 4)),
                ((4, 5, 15), (6, 1, 4)),
                ((4, 5, -15), (6, 1, 4)),
                ((4, 5, i32::MIN), (6, 1, 4)),
                ((3, 3, 15), (6, 9, 3)),
                ((3, 32, 15), (6, 9, 3)),
                ((32, 3, 15), (6, 9, 32)),
            ]
        ),
        None
    );
    assert_eq!(rt; told(s.figure(32)), (6, 9, 32));
    assert_eq!(rt; s.figure(4)?, 0);
    Ok(())
}

#[test]
fn amounts(rt: HostRuntime) -> Result<(), Fail> {
    let mut s = Bridge::blank();
    assert_eq!(rt;
        wrong_row(
            |(line, amount)| s.credit(line, amount),
            &[
                ((7, 0), (6, 3, 7)),
                ((7, 1_001), (6, 3, 7)),
                ((7, -1_001), (6, 3, 7)),
                ((32, 0), (6, 9, 32)),
                ((u32::MAX, 1), (6, 9, u32::MAX)),
                ((7, 1_000), (0, 0, 0)),
                ((7, -1), (0, 0, 0)),
            ]
        ),
        None
    );
    assert_eq!(rt; s.figure(7)?, 999);
    assert_eq!(rt;
        wrong_row(
            |(line, amount)| s.debit(line, amount),
            &[
                ((7, 0), (6, 3, 7)),
                ((7, 1_001), (6, 3, 7)),
                ((7, -1_001), (6, 3, 7)),
                ((32, 0), (6, 9, 32)),
                ((7, -1_000), (0, 0, 0)),
                ((7, 1), (0, 0, 0)),
            ]
        ),
        None
    );
    for (line, want) in [(6, 0), (7, 1_998), (8, 0)] {
        assert_eq!(rt; s.figure(line)?, want);
    }
    Ok(())
}

#[test]
fn figures_at_their_ends(rt: HostRuntime) -> Result<(), Fail> {
    let mut top: Bridge = credited(1_000)?;
    assert_eq!(rt; told(top.credit(0, 1)), (6, 2, 0));
    assert_eq!(rt; told(top.credit(0, 1_001)), (6, 3, 0));
    assert_eq!(rt; told(top.debit(0, -1)), (6, 2, 0));
    assert_eq!(rt;
        wrong_row(
            |(a, b, r)| top.enter(a, b, r),
            &[
                ((0, 2, 20), (6, 2, 0)),
                ((2, 0, -20), (6, 2, 0)),
                ((0, 2, 25), (6, 1, 0)),
                ((0, 1, 20), (6, 2, 0)),
                ((0, 1, -20), (6, 2, 1)),
            ]
        ),
        None
    );
    assert_eq!(rt; top.figure(0)?, 20_000);
    let mut low: Bridge = credited(-1_000)?;
    assert_eq!(rt; told(low.debit(0, 1)), (6, 2, 0));
    assert_eq!(rt; told(low.credit(0, -1)), (6, 2, 0));
    assert_eq!(rt; told(low.enter(0, 2, -20)), (6, 2, 0));
    assert_eq!(rt; low.figure(0)?, -20_000);
    Ok(())
}
