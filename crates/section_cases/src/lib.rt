// Cases of the two sections at the edges of their rules, as tables; each test is proved safe, and then run.
#![tactic(auto)]

#[cfg(test)]
mod bridge_cases;
#[cfg(test)]
mod chess_cases;
#[cfg(test)]
mod game_cases;
#[cfg(test)]
mod sum_cases;
#[cfg(test)]
mod told;
