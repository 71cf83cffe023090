// Numbers as options spell them.
ghost use Rattle.std.specs.Prelude.{◌≡◌, ◌≤◌, length, IfSome};
ghost use Rattle.std.specs.List.{list_all};
ghost use Rattle.command_line.specs.Numbers.{is_digit, is_plain_decimal, value_of, number_in};

fn all_digits(bytes: &[u8]) -> bool
    ensures { result ≡ list_all is_digit bytes.now }
{
    bytes.iter().all(|b| b.is_ascii_digit())
}

fn is_decimal(digits: &[u8]) -> bool
    ensures { result ≡ is_plain_decimal digits.now }
{
    all_digits(digits) && (digits.len() == 1 || (digits.len() > 1 && digits[0] != b'0'))
}

fn decimal_value(digits: &[u8]) -> u32
    requires { length digits.now ≤ 4 }
    ensures { result ≡ value_of digits.now }
{
    let mut value = 0u32;
    for digit in digits {
        value = 10 * value + u32::from(digit.saturating_sub(b'0'));
    }
    value
}

/// The number that the text spells in plain decimal, where it lies from `low` to `high`.
pub fn number(text: &str, low: u32, high: u32) -> Option<u32>
    requires { high ≤ 9999 }
    ensures is { result ≡ number_in low high text.now }
    ensures range { IfSome result (λ n. (low ≤ n) × (n ≤ high)) }
{
    let digits = text.as_bytes();
    if digits.len() > 4 {
        return None;
    }
    if !is_decimal(digits) {
        return None;
    }
    let value = decimal_value(digits);
    if low <= value && value <= high {
        Some(value)
    } else {
        None
    }
}
