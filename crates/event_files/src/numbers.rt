//! Decimal numbers.
ghost use Rattle.std.specs.Prelude.{◌≡◌, ◌<◌, ◌^◌, ℕ, IfSome, IfNone, Some, decimal};
ghost use Rattle.event_files.specs.Numbers.{IsValueOf, IsTooLarge};

/// Returns the value of a text of digits, or `None` if it has another byte or the value does not
/// fit in 32 bits.
fn value_of(digits: &[u8]) -> Option<u32>
    ensures some { IfSome result (IsValueOf digits.now) }
    ensures none { IfNone result (IsTooLarge digits.now) }
{
    let mut value: u32 = 0;
    for digit in digits {
        if !digit.is_ascii_digit() {
            return None;
        }
        value = value
            .checked_mul(10)?
            .checked_add(u32::from(*digit - b'0'))?;
    }
    Some(value)
}

/// Returns the number that `digits` denotes: `0`, or digits without a leading zero. Returns `None`
/// for any other text.
pub fn parse_number(digits: &[u8]) -> Option<u32>
    ensures sound { IfSome result (λ n. digits.now ≡ decimal n) }
    ensures complete { (n : ℕ) → n < 2 ^ 32 → digits.now ≡ decimal n → result ≡ Some n }
{
    if digits.is_empty() {
        return None;
    }
    if digits[0] == b'0' {
        return if digits.len() == 1 { Some(0) } else { None };
    }
    value_of(digits)
}
