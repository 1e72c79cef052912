use script::{Pending, Tally, answer_text};
use std::test::Fail;

// A line of that many bytes.
fn zeros(n: usize) -> Pending {
    let mut pending = Pending::new();
    for _ in 0..n {
        pending.add(b'0');
    }
    pending
}

#[test]
fn eighty_bytes_are_kept_and_no_more(rt: HostRuntime) {
    assert!(rt; !Pending::new().is_begun());
    for (bytes, kept) in [
        (0, Some(0)),
        (1, Some(1)),
        (79, Some(79)),
        (80, Some(80)),
        (81, None),
        (5_000, None),
    ] {
        let pending = zeros(bytes);
        assert_eq!(rt; pending.is_begun(), bytes > 0);
        assert_eq!(rt; pending.line().map(|line| line.len()), kept);
    }
}

#[test]
fn a_long_line_is_refused(rt: HostRuntime) -> Result<(), Fail> {
    let mut tally = Tally::new();
    assert_eq!(rt;
        answer_text(rt.alloc(), tally.play(None))?.as_str(),
        "no\t27\t0\t0\n"
    );
    assert_eq!(rt;
        answer_text(rt.alloc(), tally.play(Some(b"chess")))?.as_str(),
        "ok\n"
    );
    assert_eq!(rt;
        answer_text(rt.alloc(), tally.play(zeros(81).line()))?.as_str(),
        "no\t27\t0\t0\n"
    );
    Ok(())
}
