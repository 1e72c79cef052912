use sections::{Fault, Section};

// Number, cause and line of an answer; all 0 where nothing is refused, so that one table has both.
pub(crate) type Told = (u8, u8, u32);

pub(crate) fn told<T: Drop>(answer: Result<T, Fault>) -> Told {
    match answer {
        Ok(_) => (0, 0, 0),
        Err(fault) => fault.code(),
    }
}

// The first row of a table whose call is not answered as the row says, and what it was told; the calls are made in turn.
pub(crate) fn wrong_row<R: Copy, F: FnMut(R) -> Result<(), Fault>>(
    mut call: F,
    table: &[(R, Told)],
) -> Option<(R, Told)>
    requires { F.IsAlwaysCallable call }
{
    for (row, want) in table {
        let answer = told(call(*row));
        if answer != *want {
            return Some((*row, answer));
        }
    }
    None
}

// What lines 0 and 1 of a blank sheet have after one entry.
pub(crate) fn gains<S: Section>(r: i32) -> Result<(i32, i32), Fault> {
    let mut s = S::blank();
    s.enter(0, 1, r)?;
    Ok((s.figure(0)?, s.figure(1)?))
}

// A sheet whose lines 0 and 1 have been credited twenty times.
pub(crate) fn credited<S: Section>(amount: i32) -> Result<S, Fault> {
    let mut s = S::blank();
    for _ in 0..20 {
        s.credit(0, amount)?;
        s.credit(1, amount)?;
    }
    Ok(s)
}
