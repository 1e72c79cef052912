use methods::{Method, TokenTree};
use std::io;

// What is left and the tokens of each station with its colour, to the end of the line.
fn tell_tokens(rt: &impl Print, tree: &TokenTree, n: usize) -> io::Result<()> {
    let left = tree.outstanding();
    print!(rt; "left {left}, tokens")?;
    for station in 0..n {
        let tokens = tree.tokens_of(station);
        let colour = if tree.green_at(station) {
            "green"
        } else {
            "yellow"
        };
        print!(rt; " {tokens} {colour}")?;
    }
    println!(rt; "")
}

// A begin and arrivals at these stations, each with the tokens that it leaves.
fn trace(rt: &impl Print, n: usize, w: i64, stations: &[usize]) -> io::Result<()> {
    let mut tree = TokenTree::fresh();
    match tree.begin(n, w) {
        Ok(sent) => print!(rt; "trace begin {n} {w}: {sent}, ")?,
        Err(_) => return println!(rt; "trace begin {n} {w}: refused"),
    }
    tell_tokens(rt, &tree, n)?;
    for &station in stations {
        match tree.arrived(station) {
            Ok(sent) => print!(rt; "  at {station}: {sent}, ")?,
            Err(_) => print!(rt; "  at {station}: refused, ")?,
        }
        tell_tokens(rt, &tree, n)?;
    }
    Ok(())
}

pub fn all(rt: &impl Print) -> io::Result<()> {
    trace(rt, 3, 5, &[2, 2, 1, 1, 0])?;
    trace(rt, 4, 1, &[3])?;
    trace(rt, 4, 2, &[0, 3])?;
    trace(rt, 3, 7, &[1, 1, 1, 0, 2, 2, 2])?;
    trace(rt, 5, 0, &[0])?;
    trace(rt, 1, 3, &[0, 0, 0])?;
    trace(rt, 2, 4, &[1, 1, 1, 1])?;
    trace(rt, 7, 10, &[6, 6, 6, 6, 6, 6, 6, 6, 6, 6])?;
    trace(rt, 7, 28, &[0, 0, 0, 4, 4, 4, 4, 4, 1, 0, 0, 5])?;
    trace(
        rt,
        12,
        30,
        &[
            11, 10, 9, 8, 7, 11, 11, 0, 0, 0, 3, 3, 3, 5, 5, 5, 1, 1, 1, 1,
        ],
    )?;
    trace(rt, 64, 2, &[63, 63])
}
