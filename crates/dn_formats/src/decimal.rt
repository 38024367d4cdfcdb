//! Numbers written in digits.

ghost use Rattle.std.specs.Prelude.{◌≡◌, ◌≤◌, IfSome, nat_le, None, Some, if◌then◌else◌};
ghost use Rattle.std.specs.List.{list_all};
ghost use Rattle.dn_formats.specs.Decimal.{is_digit, is_decimal, decimal_value, number_within};

/// Whether a byte is a digit.
fn is_digit_byte(byte: u8) -> bool
    ensures { result ≡ is_digit byte }
{
    matches!(byte, b'0'..=b'9')
}

/// Whether each byte is a digit.
fn has_digits_alone(text: &[u8]) -> bool
    ensures { result ≡ list_all is_digit text.now }
{
    text.iter().all(|byte| is_digit_byte(*byte))
}

/// Whether a text is a number in digits, with no zero before another digit.
fn is_number(text: &[u8]) -> bool
    ensures { result ≡ is_decimal text.now }
{
    match text {
        [] => false,
        [only] => is_digit_byte(*only),
        [first, ..] => *first != b'0' && has_digits_alone(text),
    }
}

/// The number that digits write, up to a limit.
fn value_up_to(digits: &[u8], high: u32) -> Option<u32>
    ensures within { IfSome result (λ n. n ≤ high) }
    ensures value { result ≡ (if nat_le (decimal_value digits.now) high then Some (decimal_value digits.now) else None) }
{
    let mut value: u64 = 0;
    for digit in digits {
        value = 10 * value + u64::from(digit.saturating_sub(b'0'));
        if value > u64::from(high) {
            return None;
        }
    }
    Some(value as u32)
}

/// The number from `low` to `high`, both included, that a text writes in digits, without sign or leading zero; None
/// where it writes none.
pub fn read_number(text: &[u8], low: u32, high: u32) -> Option<u32>
    ensures within { IfSome result (λ n. n ≤ high) }
    ensures value { result ≡ number_within low high text.now }
{
    if !is_number(text) {
        return None;
    }
    let value = value_up_to(text, high)?;
    if value < low {
        return None;
    }
    Some(value)
}
