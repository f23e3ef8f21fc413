//! Euclid's algorithm.

ghost use Rattle.std.specs.Int.{IsGcd};

/// The greatest common divisor.
pub fn greatest_divisor(a: u64, b: u64) -> u64
    ensures { IsGcd a b result }
{
    let mut x = a;
    let mut y = b;
    while y != 0 {
        let rest = x % y;
        x = y;
        y = rest;
    }
    x
}
