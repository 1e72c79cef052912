ghost use Rattle.std.specs.Prelude.{◌≡◌, ◌+◌, ◌*◌, ◌%◌, ◌^◌, ◌<◌, max};

use crate::named::Named;
use crate::pattern::Pattern;
use methods::Method;
use std::io;

// What the arrivals of a run sent: all messages, the most in one call, and a number that depends on each and on their order.
#[derive(Clone, Copy, Default)]
struct Sent {
    sum: u64,
    most: u32,
    check: u64,
}

impl Sent {
    fn add(self, sent: u32) -> Sent
        requires room { self.sum + sent < 2 ^ 64 }
        requires small { self.check < 1000003 }
        ensures sum { result.sum ≡ self.sum + sent }
        ensures most { result.most ≡ max self.most sent }
        ensures check { result.check ≡ (self.check * 31 + sent) % 1000003 }
    {
        Sent {
            sum: self.sum + u64::from(sent),
            most: self.most.max(sent),
            check: (self.check * 31 + u64::from(sent)) % 1000003,
        }
    }
}

// A run: `w` arrivals at `n` stations, in a pattern.
#[derive(Clone, Copy)]
struct Run {
    n: u32,
    w: u32,
    pattern: Pattern,
}

impl Run {
    // The arrivals, or those up to the first that is refused.
    fn arrivals<M: Method>(self, method: &mut M) -> Sent {
        let mut all = Sent::default();
        for k in 0..self.w {
            match method.arrived(self.pattern.station(self.n, k)) {
                Ok(sent) => all = all.add(sent),
                Err(_) => return all,
            }
        }
        all
    }

    // From a fresh method, on one line.
    fn tell<M: Named>(self, rt: &impl Print) -> io::Result<()> {
        let Run { n, w, pattern } = self;
        let word = M::WORD;
        let mut method = M::fresh();
        let Ok(begun) = method.begin(n as usize, i64::from(w)) else {
            return println!(rt; "{word} {n} {w} refused");
        };
        let Sent { sum, most, check } = self.arrivals(&mut method);
        let left = method.outstanding();
        println!(rt;
            "{word} n {n} w {w} {pattern}: begin {begun} arrivals {sum} most {most} check {check} left {left}"
        )
    }
}

// Runs for `n` stations and several numbers of arrivals, in every pattern.
pub fn all<M: Named>(rt: &impl Print, n: u8) -> io::Result<()> {
    let n = u32::from(n);
    for w in [0, 1, n.saturating_sub(1), n, n + 1, 5 * n + 3, 8192] {
        for pattern in Pattern::ALL {
            Run { n, w, pattern }.tell::<M>(rt)?;
        }
    }
    Ok(())
}
