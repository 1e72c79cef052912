use crate::named::Named;
use methods::{Method, MethodRefusal};
use std::{fmt, io};

// A call of a counting method, as a value and no closure: it is made and told.
#[derive(Clone, Copy)]
enum Call {
    Begin(usize, i64),
    Arrived(usize),
}

impl fmt::Display for Call {
    fn fmt<W: fmt::Write>(&self, f: &mut fmt::Formatter<W>) -> fmt::Result {
        match self {
            Call::Begin(n, w) => write!(f, "begin {n} {w}"),
            Call::Arrived(station) => write!(f, "arrived {station}"),
        }
    }
}

impl Call {
    fn of<M: Method>(self, method: &mut M) -> Result<u32, MethodRefusal> {
        match self {
            Call::Begin(n, w) => method.begin(n, w),
            Call::Arrived(station) => method.arrived(station),
        }
    }
}

// Every refusal, and calls after which the method must go on as if those had not been made.
const CALLS: [Call; 23] = [
    Call::Arrived(0),
    Call::Begin(0, 5),
    Call::Begin(65, 5),
    Call::Begin(3, -1),
    Call::Begin(3, 8193),
    Call::Begin(0, -1),
    Call::Begin(3, 2),
    Call::Begin(3, 5),
    Call::Begin(3, 0),
    Call::Begin(0, 5),
    Call::Begin(65, 0),
    Call::Arrived(3),
    Call::Arrived(64),
    Call::Arrived(2),
    Call::Arrived(3),
    Call::Arrived(1),
    Call::Arrived(0),
    Call::Arrived(3),
    Call::Arrived(0),
    Call::Begin(64, 0),
    Call::Begin(64, 8192),
    Call::Begin(1, 1),
    Call::Arrived(64),
];

pub fn all<M: Named>(rt: &impl Print) -> io::Result<()> {
    let word = M::WORD;
    let mut method = M::fresh();
    for call in CALLS {
        let answer = call.of(&mut method);
        let left = method.outstanding();
        match answer {
            Ok(sent) => println!(rt; "{word} {call}: ok {sent}, left {left}")?,
            // the program's own form: blanks where a script has tabs
            Err(refusal) => {
                let (number, cause, line) = refusal.code();
                println!(rt; "{word} {call}: no {number} {cause} {line}, left {left}")?;
            }
        }
    }
    Ok(())
}
