// Runs begins and arrivals on both counting methods, and prints the control messages and what is left outstanding.
#![tactic(auto)]

mod named;
mod pattern;
mod refusals;
mod runs;
mod traces;

use methods::{Collector, TokenTree};
use std::io;

fn all(rt: &impl Print) -> io::Result<()> {
    traces::all(rt)?;
    refusals::all::<Collector>(rt)?;
    refusals::all::<TokenTree>(rt)?;
    for n in [1, 2, 3, 4, 5, 7, 8, 15, 31, 63, 64] {
        runs::all::<Collector>(rt, n)?;
        runs::all::<TokenTree>(rt, n)?;
    }
    Ok(())
}

fn main(rt: HostRuntime) -> io::Result<()> {
    all(&rt)
}
