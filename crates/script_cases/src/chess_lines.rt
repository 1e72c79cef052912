use crate::rounds::wrong_line;
use script::Tally;
use std::test::Fail;

#[test]
fn a_round_of_chess(rt: HostRuntime) -> Result<(), Fail> {
    let lines = [
        ("", "no\t27\t0\t0\n"),
        ("chess\t", "no\t27\t0\t0\n"),
        ("chess", "ok\n"),
        ("0\t1\tw", "ok\n"),
        ("2\t3\td", "ok\n"),
        ("4\t5\tl", "ok\n"),
        ("6\t7\tn", "ok\n"),
        ("6\t7\tW", "no\t27\t0\t0\n"),
        ("6\t7\tww", "no\t27\t0\t0\n"),
        ("6\t7\t2", "no\t27\t0\t0\n"),
        ("6\t7\t10", "no\t27\t0\t0\n"),
        ("6\t7\t", "no\t27\t0\t0\n"),
        ("6\t6\tw", "no\t6\t9\t6\n"),
        ("6\t32\tw", "no\t6\t9\t6\n"),
        ("32\t6\tw", "no\t6\t9\t32\n"),
    ];
    let mut tally = Tally::new();
    assert_eq!(rt; wrong_line(rt.alloc(), &mut tally, &lines)?, None);
    let scores = tally.end_text(rt.alloc())?;
    assert_eq!(rt;
        scores.as_str(),
        "score\t0\t2\nscore\t2\t1\nscore\t3\t1\nscore\t5\t2\n"
    );
    Ok(())
}
