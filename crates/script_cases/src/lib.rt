// Lines of a round, well written and not, with the answers that they must get; each test is proved safe, and then run.
#![tactic(auto)]

#[cfg(test)]
mod bridge_lines;
#[cfg(test)]
mod chess_lines;
#[cfg(test)]
mod long_lines;
#[cfg(test)]
mod numbers;
#[cfg(test)]
mod rounds;
