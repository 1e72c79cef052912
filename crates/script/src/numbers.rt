ghost use Rattle.std.specs.Prelude.{◌≡◌, ◌+◌, ◌*◌, ◌^◌, ◌<◌, ◌≤◌, IfSome};
ghost use Rattle.script.specs.Numbers.{digits_after, natural, number};

// At most `room` digits, read after the number `acc`. Slice patterns take the field apart as it is read; a loop would carry
// the same two numbers and count on.
#[tactic(auto, using(crate::proofs::Digits::digit_steps))]
fn digits(s: &[u8], acc: u32, room: u32) -> Option<u32>
    requires { (acc + 1) * 10 ^ room ≤ 10 ^ 9 }
    ensures value { result ≡ digits_after acc room s.now }
    ensures bound { IfSome result (λ n. n < 10 ^ 9) }
{
    match s {
        [] => Some(acc),
        [c @ b'0'..=b'9', rest @ ..] if room > 0 => digits(
            rest,
            acc * 10 + u32::from(*c - b'0'),
            room - 1,
        ),
        _ => None,
    }
}

// A number of one to nine digits. A function and no `TryFrom<&[u8]>`, which only std could write for a number.
pub fn read_natural(field: &[u8]) -> Option<u32>
    ensures value { result ≡ natural field.now }
    ensures bound { IfSome result (λ n. n < 10 ^ 9) }
{
    if field.is_empty() {
        return None;
    }
    digits(field, 0, 9)
}

// A number of one to nine digits, which may have a minus in front.
pub fn read_number(field: &[u8]) -> Option<i32>
    ensures { result ≡ number field.now }
{
    match field {
        [b'-', rest @ ..] => read_natural(rest).map(|n| -(n as i32)),
        _ => read_natural(field).map(|n| n as i32),
    }
}
