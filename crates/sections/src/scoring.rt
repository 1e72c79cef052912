ghost use Rattle.std.specs.Prelude.{◌≡◌, Bool, ℤ, Option};
ghost use Rattle.sections.specs.Rule.{Rule, Lawful};
ghost use Rattle.sections.specs.Scored.{Plays, AmountsAreSmall};

// A kind of scoring: its rule, and the three answers by which a sheet plays it.
pub trait Scoring: Copy {
    ghost rule: { Rule };

    ghost gains: { ℤ → Option (ℤ × ℤ) };

    ghost is_amount: { ℤ → Bool };

    ghost covers: { ℤ → ℤ → Bool };

    // What a result gives the first and the second line, or nothing where there is no such result.
    fn gains(r: i32) -> Option<(i32, i32)>
        ensures { result ≡ gains r };

    // Whether a slip may carry the amount.
    fn is_amount(amount: i32) -> bool
        ensures { result ≡ is_amount amount };

    // Whether a line with that figure may be debited the amount.
    fn covers(figure: i32, amount: i32) -> bool
        ensures { result ≡ covers figure amount };

    ghost lawful: { Lawful rule };

    ghost plays: { Plays rule gains is_amount covers };

    ghost small: { AmountsAreSmall is_amount };
}
