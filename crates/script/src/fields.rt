ghost use Rattle.std.specs.Prelude.{◌≡◌};
ghost use Rattle.std.specs.Option.{option_copied};
ghost use Rattle.script.specs.Fields.{field, rest};

// The first field of a line, and what follows the tab after it.
pub fn first_field(line: &[u8]) -> (&[u8], Option<&[u8]>)
    ensures first { result.0.now ≡ field line.now }
    ensures more { option_copied result.1 ≡ rest line.now }
{
    match line.iter().position(|b| *b == b'\t') {
        Some(i) => (&line[..i], Some(&line[i + 1..])),
        None => (line, None),
    }
}
