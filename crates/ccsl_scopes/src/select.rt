//! What stands in brackets behind a name, and the bits that it means.

ghost use Rattle.std.specs.Prelude.{◌≡◌, ◌<◌, IfSome, length, position};
ghost use Rattle.ccsl_scopes.specs.References.{index, bit_at, range_between, is_colon, numbers, has_brackets, selected};
ghost use Rattle.ccsl_scopes.specs.Selects.{place, counted, bits_of};

use ccsl_base::decimal;

/// Nothing, one number, or a left and a right one.
#[derive(Clone, Copy)]
pub enum Select {
    Whole,
    Bit(u32),
    Range(u32, u32),
}

/// Bits beside one another: how many stand to the right of them, and how many they are.
#[derive(Clone, Copy)]
pub struct Bits {
    pub low: u32,
    pub width: u32,
}

fn index(text: &[u8]) -> Option<u32>
    ensures { result ≡ index text.now }
{
    match decimal(text, u64::from(u32::MAX - 1)) {
        Some(value) => Some(value as u32),
        None => None,
    }
}

fn bit_at(number: Option<u32>) -> Option<Select>
    ensures { result ≡ bit_at number }
{
    match number {
        Some(i) => Some(Select::Bit(i)),
        None => None,
    }
}

fn range_between(left: Option<u32>, right: Option<u32>) -> Option<Select>
    ensures { result ≡ range_between left right }
{
    let Some(left) = left else {
        return None;
    };
    match right {
        Some(right) => Some(Select::Range(left, right)),
        None => None,
    }
}

// Where the first colon stands.
fn colon_in(text: &[u8]) -> Option<usize>
    ensures value { result ≡ position is_colon text.now }
    ensures within { IfSome result (λ colon. colon < length text.now) }
{
    text.iter().position(|b| *b == b':')
}

// What stands between the brackets: one number, or two with a colon between.
fn numbers(inner: &[u8]) -> Option<Select>
    ensures { result ≡ numbers inner.now (position is_colon inner.now) }
{
    match colon_in(inner) {
        Some(colon) => range_between(index(&inner[..colon]), index(&inner[colon + 1..])),
        None => bit_at(index(inner)),
    }
}

fn has_brackets(text: &[u8]) -> bool
    ensures { result ≡ has_brackets text.now }
{
    text.len() > 1 && (text[0] == b'[' && text[text.len() - 1] == b']')
}

/// What a text with brackets round it means: `[7]` or `[7:0]`.
pub fn select_of(text: &[u8]) -> Option<Select>
    ensures { result ≡ selected text.now }
{
    if !has_brackets(text) {
        return None;
    }
    numbers(&text[1..text.len() - 1])
}

fn counted(size: u32, i: u32) -> Option<u32>
    ensures { result ≡ counted size i }
{
    if i < size { Some(i) } else { None }
}

/// The place of a bit, counted from the right.
fn place(range: Select, size: u32, i: u32) -> Option<u32>
    ensures value { result ≡ place range size i }
    ensures small { IfSome result (λ p. p < 4294967295) }
{
    match range {
        Select::Whole => counted(size, i),
        Select::Bit(n) => { if n == i { Some(0) } else { None } }
        Select::Range(left, right) => {
            if right <= left && u64::from(left - right) + 1 == u64::from(size) {
                if right <= i && i <= left {
                    Some(i - right)
                } else {
                    None
                }
            } else if left < right && u64::from(right - left) + 1 == u64::from(size) {
                if left <= i && i <= right {
                    Some(right - i)
                } else {
                    None
                }
            } else {
                counted(size, i)
            }
        }
    }
}

/// The bits that a path means of a variable: by what stands in brackets behind its name in the header, its size, and
/// what stands in brackets in the path.
pub fn bits_of(range: Select, size: u32, wanted: Select) -> Option<Bits>
    ensures { result ≡ bits_of range size wanted }
{
    let all = Bits {
        low: 0,
        width: size,
    };
    match (range, wanted) {
        (_, Select::Whole) => Some(all),
        (Select::Bit(n), Select::Bit(i)) => { if n == i { Some(all) } else { None } }
        (Select::Bit(_), Select::Range(_, _)) => None,
        (_, Select::Bit(i)) => {
            let low = place(range, size, i)?;
            Some(Bits { low, width: 1 })
        }
        (_, Select::Range(left, right)) => {
            let high = place(range, size, left)?;
            let low = place(range, size, right)?;
            if high < low {
                return None;
            }
            Some(Bits {
                low,
                width: high - low + 1,
            })
        }
    }
}
