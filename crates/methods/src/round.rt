ghost use Rattle.std.specs.Prelude.{◌≡◌, ◌+◌, ◌<◌, ◌≤◌, [], length, sum};
ghost use Rattle.common.specs.Limits.{most_stations, most_arrivals};
ghost use Rattle.methods.specs.Deal.{new_round};
ghost use Rattle.methods.specs.Split.{after_split, paid};
ghost use Rattle.methods.specs.Swap.{exchange};
ghost use Rattle.methods.specs.Tokens.{FewStations, FewTokens, green, tokens_at};

use crate::deal::deal;
use crate::shares::shares;
use arrayvec::ArrayVec;
use common::limits::MOST_STATIONS;

// A round of the token tree: its limit, and the tokens of each station. At most 64 stations and 8,192 tokens. Ghost fields and no
// `Model`: what a `Model` keeps is not known to the functions that are passed one, and each step rests on these bounds.
#[derive(Drop)]
pub(crate) struct Round {
    limit: u16,
    tokens: ArrayVec<u16, MOST_STATIONS>,
    ghost small: { FewStations tokens.items },
    ghost few: { FewTokens tokens.items },
}

// Makes it `n` stations, whatever they hold: a deal writes them all.
fn resize(tokens: &mut ArrayVec<u16, MOST_STATIONS>, n: usize)
    requires { n ≤ most_stations }
    ensures { length tokens.new.items ≡ n }
{
    tokens.truncate(n);
    for _ in tokens.len()..n {
        tokens.push(0);
    }
}

// The tokens of these stations together.
pub(crate) fn total(tokens: &[u16]) -> u32
    requires { length tokens.now ≤ most_stations }
    ensures { result ≡ sum tokens.now }
{
    tokens.iter().map(|t| u32::from(*t)).sum()
}

impl Round {
    ghost use Rattle.methods.specs.Held.{held};

    // A round of no stations.
    pub(crate) fn none() -> Round
        ensures { held result ≡ record { limit = 0; tokens = [] } }
    {
        Round {
            limit: 0,
            tokens: ArrayVec::new(),
        }
    }

    // Deals `total` tokens over `n` stations anew, the same to each and one more to the first ones. The two numbers are of no value yet,
    // so that their bounds are asked here. It writes in place: a new round would be copied over the old one.
    pub(crate) fn deal(&mut self, n: usize, total: u16)
        requires some { 1 ≤ n }
        requires small { n ≤ most_stations }
        requires few { total ≤ most_arrivals }
        ensures { held self.new ≡ new_round n total }
    {
        resize(&mut self.tokens, n);
        self.limit = deal(self.tokens.as_mut_slice(), total);
    }

    pub(crate) fn stations(&self) -> usize
        ensures count { result ≡ length (held self.now).tokens }
        ensures small { result ≤ most_stations }
    {
        self.tokens.len()
    }

    // How many tokens a station has; one that is not counted has none.
    pub(crate) fn tokens_of(&self, i: usize) -> u16
        ensures { result ≡ tokens_at (held self.now).tokens i }
    {
        self.tokens.get(i).copied().unwrap_or(0)
    }

    // Whether a station is green: it has more than half of the limit.
    pub(crate) fn is_green(&self, i: usize) -> bool
        ensures { result ≡ green (held self.now).limit (tokens_at (held self.now).tokens i) }
    {
        2 * u32::from(self.tokens_of(i)) > u32::from(self.limit)
    }

    // The tokens of all stations together.
    pub(crate) fn total(&self) -> u32
        ensures sum { result ≡ sum (held self.now).tokens }
        ensures few { result ≤ most_arrivals }
    {
        total(self.tokens.as_slice())
    }

    // Station `i` pays one token.
    pub(crate) fn pay(&mut self, i: usize)
        requires counted { i < length (held self.old).tokens }
        requires has { 0 < tokens_at (held self.old).tokens i }
        ensures { held self.new ≡ record { limit = (held self.old).limit; tokens = paid (held self.old).tokens i } }
    {
        self.tokens[i] -= 1;
    }

    // `giver` splits its tokens with `asker`, which has none.
    pub(crate) fn split(&mut self, giver: usize, asker: usize)
        requires above { giver < asker }
        requires counted { asker < length (held self.old).tokens }
        requires empty { tokens_at (held self.old).tokens asker ≡ 0 }
        ensures { held self.new ≡ record { limit = (held self.old).limit; tokens = after_split (held self.old).tokens giver asker } }
    {
        let tokens = self.tokens.as_mut_slice();
        let (asked, kept) = shares(tokens[giver]);
        tokens[giver] = kept;
        tokens[asker] = asked;
    }

    // Stations `i` and `child` exchange their whole tokens.
    pub(crate) fn exchange(&mut self, i: usize, child: usize)
        requires above { i < child }
        requires counted { child < length (held self.old).tokens }
        ensures { held self.new ≡ record { limit = (held self.old).limit; tokens = exchange (held self.old).tokens i child } }
    {
        self.tokens.swap(i, child);
    }
}
