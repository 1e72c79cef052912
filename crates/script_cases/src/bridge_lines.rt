use crate::rounds::wrong_line;
use script::Tally;
use std::test::Fail;

#[test]
fn a_round_of_bridge(rt: HostRuntime) -> Result<(), Fail> {
    let lines = [
        ("0\t1\t10", "no\t27\t0\t0\n"),
        ("Bridge", "no\t27\t0\t0\n"),
        ("bridge ", "no\t27\t0\t0\n"),
        ("bridge", "ok\n"),
        ("bridge", "no\t27\t0\t0\n"),
        ("0\t1\t10", "ok\n"),
        ("0\t1\t20", "ok\n"),
        ("2\t3\t-490", "ok\n"),
        ("2\t3\t-500", "ok\n"),
        ("000000031\t0\t000004000", "ok\n"),
        ("8\t9\t15010", "no\t6\t1\t8\n"),
        ("8\t9\t-15", "no\t6\t1\t8\n"),
        ("8\t8\t-15", "no\t6\t9\t8\n"),
        ("256\t9\t10", "no\t6\t9\t256\n"),
        ("999999999\t9\t10", "no\t6\t9\t999999999\n"),
        ("8\t9\t999999999", "no\t6\t1\t8\n"),
        ("8\t9\t0000000010", "no\t27\t0\t0\n"),
        ("8\t9\t--10", "no\t27\t0\t0\n"),
        ("8\t9\t-", "no\t27\t0\t0\n"),
        ("8\t9\t+10", "no\t27\t0\t0\n"),
        ("8\t9\tw", "no\t27\t0\t0\n"),
        ("-8\t9\t10", "no\t27\t0\t0\n"),
        ("8\t9\t-0", "ok\n"),
        ("8\t9\t-000", "ok\n"),
        ("8\t9", "no\t27\t0\t0\n"),
        ("8\t9\t", "no\t27\t0\t0\n"),
        ("8\t\t10", "no\t27\t0\t0\n"),
        ("\t8\t9\t10", "no\t27\t0\t0\n"),
        ("8\t9\t10\t", "no\t27\t0\t0\n"),
        ("8\t9\t10\r", "no\t27\t0\t0\n"),
        (" 8\t9\t10", "no\t27\t0\t0\n"),
        ("", "no\t27\t0\t0\n"),
    ];
    let mut tally = Tally::new();
    assert_eq!(rt; wrong_line(rt.alloc(), &mut tally, &lines)?, None);
    let scores = tally.end_text(rt.alloc())?;
    assert_eq!(rt;
        scores.as_str(),
        "score\t0\t-23\nscore\t1\t-1\nscore\t2\t-21\nscore\t3\t21\nscore\t31\t24\n"
    );
    Ok(())
}
