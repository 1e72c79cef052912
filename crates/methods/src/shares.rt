ghost use Rattle.std.specs.Prelude.{◌≡◌};
ghost use Rattle.methods.specs.Split.{shares};

// The shares of a split: the asker's, half rounded up, and what the giver keeps.
pub(crate) fn shares(tokens: u16) -> (u16, u16)
    ensures { result ≡ shares tokens }
{
    let kept = tokens / 2;
    (tokens - kept, kept)
}
