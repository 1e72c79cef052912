use script::{number_text, read_number};
use std::test::Fail;

#[test]
fn written_and_read_back(rt: HostRuntime) -> Result<(), Fail> {
    for n in [
        0,
        1,
        -1,
        9,
        10,
        -10,
        15_000,
        -15_000,
        999_999_999,
        -999_999_999,
    ] {
        let text = number_text(rt.alloc(), n)?;
        assert_eq!(rt; read_number(text.as_bytes()), Some(n));
    }
    for n in [1_000_000_000, i32::MIN, i32::MAX] {
        let text = number_text(rt.alloc(), n)?;
        assert_eq!(rt; read_number(text.as_bytes()), None);
    }
    Ok(())
}
