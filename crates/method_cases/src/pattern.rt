ghost use Rattle.std.specs.Prelude.{◌<◌};

use std::fmt;

// Where the arrivals of a run come in.
#[derive(Clone, Copy)]
pub enum Pattern {
    // all at station 0
    Root,
    // all at the last station
    Last,
    // all at one station half-way
    Middle,
    // at the stations without children in turn
    Leaves,
    // at all stations in turn
    Rotation,
    // at all stations, out of order
    Scattered,
}

impl Pattern {
    pub const ALL: [Pattern; 6] = [
        Pattern::Root,
        Pattern::Last,
        Pattern::Middle,
        Pattern::Leaves,
        Pattern::Rotation,
        Pattern::Scattered,
    ];

    // The station of arrival `k` among `n` stations; 0 where there is none, which a method refuses.
    pub fn station(self, n: u32, k: u32) -> usize
        ensures { 0 < n → result < n }
    {
        if n == 0 {
            return 0;
        }
        let n = n as usize;
        let k = k as usize;
        match self {
            Pattern::Root => 0,
            Pattern::Last => n - 1,
            Pattern::Middle => n / 2,
            Pattern::Leaves => n / 2 + k % (n - n / 2),
            Pattern::Rotation => k % n,
            Pattern::Scattered => (k * 37 + 11) % n,
        }
    }
}

impl fmt::Display for Pattern {
    fn fmt<W: fmt::Write>(&self, f: &mut fmt::Formatter<W>) -> fmt::Result {
        f.write_str(match self {
            Pattern::Root => "root",
            Pattern::Last => "last",
            Pattern::Middle => "middle",
            Pattern::Leaves => "leaves",
            Pattern::Rotation => "rotation",
            Pattern::Scattered => "scattered",
        })
    }
}
