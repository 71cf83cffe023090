//! The numbers that digits write.

ghost use Rattle.std.specs.Prelude.{◌≡◌, ◌≤◌, ◌<◌, ◌^◌, SomeIff};
ghost use Rattle.std.specs.Char.{digit_value};
ghost use Rattle.std.specs.Str.Parse.{digits_value};

/// What a digit counts, and 36 for what is none.
fn digit(b: u8) -> u8
    ensures value { result ≡ digit_value b }
    ensures small { result ≤ 36 }
{
    match b {
        b'0'..=b'9' => b - b'0',
        b'A'..=b'Z' => b - b'A' + 10,
        b'a'..=b'z' => b - b'a' + 10,
        _ => 36,
    }
}

/// The number that digits write, of any length and with leading zeros; `None` exactly where it
/// reaches the limit.
pub fn number_below(limit: u32, digits: &[u8]) -> Option<u32>
    requires { (0 < limit) × (limit ≤ 2 ^ 16) }
    ensures { SomeIff result (digits_value 10 digits.now < limit) (digits_value 10 digits.now) }
{
    let mut number = 0u32;
    for b in digits {
        number = number * 10 + u32::from(digit(*b));
        if number >= limit {
            return None;
        }
    }
    Some(number)
}
