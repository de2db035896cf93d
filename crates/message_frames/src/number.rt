//! Numbers in digits.

ghost use Rattle.std.specs.Prelude.{◌≡◌};
ghost use Rattle.message_frames.specs.Numbers.{number, with_digit};

/// Returns the number that the digits of `n` and `digit` write, or `None` if that is no digit or the number is not below
/// 2^64.
fn with_digit(n: u64, digit: u8) -> Option<u64>
    ensures { result ≡ with_digit n digit }
{
    if !digit.is_ascii_digit() {
        return None;
    }
    n.checked_mul(10)?.checked_add(u64::from(digit - b'0'))
}

/// Returns the number that decimal digits write, or `None` if a byte is no digit, there is none, or the number is not
/// below 2^64.
pub(crate) fn number(digits: &[u8]) -> Option<u64>
    ensures { result ≡ number digits.now }
{
    if digits.is_empty() {
        return None;
    }
    let mut n = 0;
    for digit in digits {
        n = with_digit(n, *digit)?;
    }
    Some(n)
}
