#![tactic(auto)]

mod scorer;

use scorer::Scorer;
use std::io::Read;

// Scores a round: reads the input to its end, and then writes the scores.
fn run(rt: &(impl Print + AllocGlobal), input: &mut impl Read) -> anyhow::Result<()> {
    let mut scorer = Scorer::new(rt);
    let mut buffer = [0u8; 4096];
    // nothing says that an input ends, so the loop has a bound; `bytes` has one too, but asks the system for each byte
    for _ in 0..u64::MAX {
        let n = input.read(&mut buffer)?;
        if n == 0 {
            break;
        }
        scorer.feed(&buffer[..n])?;
    }
    scorer.finish()
}

fn main(rt: HostRuntime) -> anyhow::Result<()> {
    run(&rt, &mut rt.stdin())
}
