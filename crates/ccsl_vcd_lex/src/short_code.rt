//! Short identifier codes, and their places in a table.

ghost use Rattle.std.specs.Prelude.{◌≡◌, ◌<◌, ◌≤◌, [], ◌∷◌, true, false, IfSome};
ghost use Rattle.std.specs.List.{list_all};
ghost use Rattle.ccsl_vcd_lex.specs.Tokens.{is_white};
ghost use Rattle.ccsl_base.specs.Name.{is_visible};
ghost use Rattle.ccsl_vcd_lex.specs.ShortCodes.{place_of, IsCode};

use crate::scan::is_space;

/// The places of codes of one to three bytes: 94 + 94^2 + 94^3.
pub const SHORT: usize = 839_514;

#[inline(always)]
fn is_visible(b: u8) -> bool
    ensures { result ≡ is_visible b }
{
    b >= 33 && b <= 126
}

/// Whether all bytes are visible characters of ASCII, as those of a code are.
pub fn are_visible(text: &[u8]) -> bool
    ensures { result ≡ list_all is_visible text.now }
{
    text.iter().all(|b| is_visible(*b))
}

// The place of a code of one byte in a table, and of one with two and with three.
#[inline(always)]
fn place_of_one(a: u8) -> usize
    requires { is_visible a ≡ true }
    ensures value { result ≡ place_of (a ∷ []) }
    ensures within { result < 94 }
{
    a as usize - 33
}

#[inline(always)]
fn place_of_two(a: u8, b: u8) -> usize
    requires first { is_visible a ≡ true }
    requires second { is_visible b ≡ true }
    ensures value { result ≡ place_of (a ∷ b ∷ []) }
    ensures within { result < 8930 }
{
    place_of_one(a) + 94 * (b as usize - 32)
}

#[inline(always)]
fn place_of_three(a: u8, b: u8, c: u8) -> usize
    requires first { is_visible a ≡ true }
    requires second { is_visible b ≡ true }
    requires third { is_visible c ≡ true }
    ensures value { result ≡ place_of (a ∷ b ∷ c ∷ []) }
    ensures within { result < SHORT }
{
    place_of_two(a, b) + 8836 * (c as usize - 32)
}

/// The place of a code in a table, or `SHORT` for one that has none.
#[inline(always)]
pub fn place_of(code: &[u8]) -> usize
    ensures value { result ≡ place_of code.now }
    ensures within { result ≤ SHORT }
{
    match code {
        [a] if is_visible(*a) => place_of_one(*a),
        [a, b] if is_visible(*a) && is_visible(*b) => place_of_two(*a, *b),
        [a, b, c] if is_visible(*a) && is_visible(*b) && is_visible(*c) => {
            place_of_three(*a, *b, *c)
        }
        _ => SHORT,
    }
}

/// How many bytes a code at the front of some bytes has, and its place in a table.
#[derive(Clone, Copy)]
pub struct ShortCode {
    pub len: usize,
    pub place: usize,
}

/// The code of one to three bytes at the front of some bytes, with white space behind it.
#[inline(always)]
pub fn code_at_front(bytes: &[u8]) -> Option<ShortCode>
    ensures { IfSome result (λ code. IsCode code.len code.place bytes.now) }
{
    match bytes {
        [a, b, ..] if is_visible(*a) && is_space(*b) => Some(ShortCode {
            len: 1,
            place: place_of_one(*a),
        }),
        [a, b, c, ..] if is_visible(*a) && is_visible(*b) && is_space(*c) => Some(ShortCode {
            len: 2,
            place: place_of_two(*a, *b),
        }),
        [a, b, c, d, ..] if is_visible(*a) && is_visible(*b) && is_visible(*c) && is_space(*d) => {
            Some(ShortCode {
                len: 3,
                place: place_of_three(*a, *b, *c),
            })
        }
        _ => None,
    }
}
