//! Letters and digits at the front of some bytes, found many bytes at a time.

ghost use Rattle.std.specs.Prelude.{◌≡◌, ◌^◌, ◌≤◌, ◌<◌, length, take, map, true};
ghost use Rattle.std.specs.List.{list_all};
ghost use Rattle.std.specs.Simd.Lanes.{mask_l};
ghost use Rattle.ccsl_vcd_lex.specs.Digits.{AreDigits};
ghost use Rattle.ccsl_vcd_read.specs.Letters.{is_bit, is_other};

use core::dec2flt::read_digits;
use std::simd::prelude::*;

const LANES: usize = 16;

// Bit k says whether byte k is neither 0 nor 1.
#[inline(always)]
fn other_bits(v: u8x16) -> u64
    ensures { result ≡ mask_l (map is_other v) }
{
    (v & u8x16::splat(0xfe))
        .simd_ne(u8x16::splat(b'0'))
        .to_bitmask()
}

/// Whether all bytes are letters of the values 0 and 1. The last 16 bytes are looked at together, whatever stands
/// before.
#[inline(always)]
pub(crate) fn are_bits(bytes: &[u8]) -> bool
    ensures { result ≡ list_all is_bit bytes.now }
{
    if bytes.len() < LANES {
        return bytes.iter().all(|b| is_bit(*b));
    }
    let mut i = 0;
    while bytes.len() - i > LANES {
        if other_bits(u8x16::from_slice(&bytes[i..])) != 0 {
            return false;
        }
        i += LANES;
    }
    other_bits(u8x16::from_slice(&bytes[bytes.len() - LANES..])) == 0
}

/// How many letters of the values 0 and 1 stand at the front; fewer may be counted where fewer than 16 bytes are left.
#[inline(always)]
pub(crate) fn bits_at_front(bytes: &[u8]) -> usize
    ensures within { result ≤ length bytes.now }
    ensures are { list_all is_bit (take result bytes.now) ≡ true }
{
    let mut i = 0;
    while bytes.len() - i >= LANES {
        let found = other_bits(u8x16::from_slice(&bytes[i..]));
        if found != 0 {
            return i + found.trailing_zeros() as usize;
        }
        i += LANES;
    }
    i
}

/// A number of digits of which any value fits 64 bits.
const DIGITS: usize = 19;

/// How many digits stand at the front of some bytes, and their value.
#[derive(Clone, Copy)]
pub(crate) struct Digits {
    pub count: usize,
    pub value: u64,
}

/// The digits at the front, where any value of so many fits 64 bits; of more digits none are counted.
#[inline(always)]
pub(crate) fn digits_at_front(bytes: &[u8]) -> Digits
    ensures within { result.count ≤ length bytes.now }
    ensures fits { result.value < 2 ^ 64 }
    ensures are { AreDigits (take result.count bytes.now) result.value }
{
    let (count, value) = read_digits(bytes, 0, 0);
    if count > DIGITS {
        return Digits { count: 0, value: 0 };
    }
    Digits { count, value }
}

/// Whether a byte is the letter of the value 0 or 1.
#[inline(always)]
pub(crate) fn is_bit(b: u8) -> bool
    ensures { result ≡ is_bit b }
{
    b == b'0' || b == b'1'
}
