//! Runs of bytes, found and copied many bytes at a time.

ghost use Rattle.std.specs.Prelude.{◌≡◌, ◌++◌, ◌+◌, ◌-◌, ◌≤◌, length, take, drop, slice_range, map};
ghost use Rattle.std.specs.List.{prefix_len};
ghost use Rattle.std.specs.Simd.Lanes.{mask_l};
ghost use Rattle.ccsl_vcd_lex.specs.Tokens.{is_white};
ghost use Rattle.ccsl_vcd_lex.specs.Lexing.{is_dark};

use std::simd::prelude::*;

pub(crate) const LANES: usize = 16;

/// Whether a byte is white space.
#[inline(always)]
#[tactic(auto, unfolding(crate::specs::Tokens::is_white))]
pub fn is_space(b: u8) -> bool
    ensures { result ≡ is_white b }
{
    (b >= 9 && b <= 13) || b == 32
}

// Bit k says whether byte k is white.
#[inline(always)]
fn white_bits(v: u8x16) -> u64
    ensures { result ≡ mask_l (map is_white v) }
{
    let low = (v - u8x16::splat(9)).simd_lt(u8x16::splat(5));
    (low | v.simd_eq(u8x16::splat(32))).to_bitmask()
}

// Where the white space ends that begins at a place.
pub(crate) fn white_end(bytes: &[u8], from: usize) -> usize
    requires { from ≤ length bytes.now }
    ensures within { result ≤ length bytes.now }
    ensures value { result ≡ from + prefix_len is_white (drop from bytes.now) }
{
    let mut i = from;
    while i < bytes.len() && is_space(bytes[i]) {
        i += 1;
    }
    i
}

// The same of the other bytes, one by one.
fn run_end_slowly(bytes: &[u8], from: usize) -> usize
    requires { from ≤ length bytes.now }
    ensures within { result ≤ length bytes.now }
    ensures value { result ≡ from + prefix_len is_dark (drop from bytes.now) }
{
    let mut i = from;
    while i < bytes.len() && !is_space(bytes[i]) {
        i += 1;
    }
    i
}

/// Where the run of bytes ends that are not white and begin at a place.
#[inline(always)]
pub fn run_end(bytes: &[u8], from: usize) -> usize
    requires { from ≤ length bytes.now }
    ensures within { result ≤ length bytes.now }
    ensures value { result ≡ from + prefix_len is_dark (drop from bytes.now) }
{
    let mut i = from;
    while bytes.len() - i >= LANES {
        let found = white_bits(u8x16::from_slice(&bytes[i..]));
        if found != 0 {
            return i + found.trailing_zeros() as usize;
        }
        i += LANES;
    }
    run_end_slowly(bytes, i)
}

// Copies a part of a piece to a place. Behind it a vector may leave what stands behind the part.
#[inline(always)]
pub(crate) fn copy_part(to: &mut [u8], at: usize, piece: &[u8], start: usize, end: usize)
    requires ordered { start ≤ end }
    requires within { end ≤ length piece.now }
    requires room { at + (end - start) + 16 ≤ length to.old }
    ensures { take (at + (end - start)) to.new ≡ take at to.old ++ slice_range piece.now start end }
{
    let len = end - start;
    if len <= LANES && LANES <= piece.len() - start {
        u8x16::from_slice(&piece[start..]).copy_to_slice(&mut to[at..]);
        return;
    }
    to[at..at + len].copy_from_slice(&piece[start..end]);
}
