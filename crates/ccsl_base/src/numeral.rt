//! Numbers that decimal digits write.

ghost use Rattle.std.specs.Prelude.{◌≡◌, ◌≤◌, ◌+◌, ◌*◌, ◌-◌, ◌&&◌, IsTrue, Some, None, nat_le, if◌then◌else◌};
ghost use Rattle.ccsl_base.specs.Letters.{is_digit};
ghost use Rattle.ccsl_base.specs.Decimal.{number_up_to};

use crate::name::is_digit;

/// A number with one more digit behind it, where it is at most `most`.
fn with_digit(value: u64, digit: u8, most: u64) -> Option<u64>
    requires { IsTrue (is_digit digit) }
    ensures { result ≡ (if nat_le (value * 10 + (digit - 48)) most then Some
        (value * 10 + (digit - 48)) else None) }
{
    let more = value.checked_mul(10)?.checked_add(u64::from(digit - b'0'))?;
    if more <= most { Some(more) } else { None }
}

/// The number that decimal digits write, where it is at most `most`. There are one or more of them, and any number of
/// zeros may stand first. A text that has anything else is none.
pub fn decimal(text: &[u8], most: u64) -> Option<u64>
    ensures { result ≡ number_up_to most text.now }
{
    if text.is_empty() {
        return None;
    }
    let mut value = 0;
    let mut rest = text;
    'digits: while let [digit, tail @ ..] = rest {
        if !is_digit(*digit) {
            return None;
        }
        value = with_digit(value, *digit, most)?;
        rest = tail;
    }
    Some(value)
}
