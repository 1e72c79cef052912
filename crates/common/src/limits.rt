// The limits of the congress, as code names them; specs/Limits has the same for definitions, and the proofs of the functions that
// test a limit tie the two.

// A sheet has lines 0 to 31.
pub const LINES: u32 = 32;
// A figure is from -20,000 to 20,000.
pub const LARGEST_FIGURE: i32 = 20_000;
// A slip carries an amount from -1,000 to 1,000.
pub const LARGEST_AMOUNT: i32 = 1_000;
// A house has 1 to 64 stations.
pub const MOST_STATIONS: usize = 64;
// A counting method waits for 0 to 8,192 arrivals.
pub const MOST_ARRIVALS: i64 = 8_192;
