//! Decimal numbers.

ghost use Rattle.std.specs.Prelude.{◌≡◌, ◌≤◌, IfSome};
ghost use Rattle.ccsl_vcd.specs.Words.{number};

// The value of one or more digits, if it is at most a limit, which has every digit.
#[inline(always)]
pub(crate) fn number(limit: u64, text: &[u8]) -> Option<u64>
    requires { 9 ≤ limit }
    ensures value { result ≡ number limit text.now }
    ensures fits { IfSome result (λ n. n ≤ limit) }
{
    if text.is_empty() {
        return None;
    }
    // a value up to this one may have any digit more
    let safe = (limit - 9) / 10;
    let mut value = 0u64;
    for b in text {
        if *b < b'0' || *b > b'9' {
            return None;
        }
        let digit = (*b - b'0') as u64;
        if value > safe && value > (limit - digit) / 10 {
            return None;
        }
        value = 10 * value + digit;
    }
    Some(value)
}
