//! The names of a system's clocks.

ghost use Rattle.std.specs.Prelude.{◌≡◌, ◌↔◌, IsTrue, nat_lt, nat_le, ◌&&◌, if◌then◌else◌};
ghost use Rattle.std.specs.List.{list_all, prefix_len};
ghost use Rattle.ccsl_base.specs.Name.{is_name};
ghost use Rattle.ccsl_base.specs.Letters.{is_inner};
ghost use Rattle.ccsl_kernel.specs.Accepted.{is_path_rest, is_hidden, Each};

use ccsl_base::{Names, is_inner, is_name};

/// How many bytes at the front of a text may stand in a name.
fn inner_front(text: &[u8]) -> usize
    ensures { result ≡ prefix_len is_inner text.now }
{
    for (i, b) in text.iter().enumerate() {
        if !is_inner(*b) {
            return i;
        }
    }
    text.len()
}

/// Whether a text has only bytes from 33 to 126.
fn are_printable(text: &[u8]) -> bool
    ensures { result ≡ list_all (λ b. nat_le 33 b && nat_le b 126) text.now }
{
    text.iter().all(|b| 33 <= *b && *b <= 126)
}

/// Whether a text is @ and then bytes from 33 to 126.
fn is_path_rest(text: &[u8]) -> bool
    ensures { result ≡ is_path_rest text.now }
{
    match text.split_first() {
        Some((b'@', path)) => are_printable(path),
        _ => false,
    }
}

/// Whether a text is the name of a hidden clock.
fn is_hidden(text: &[u8]) -> bool
    ensures { result ≡ is_hidden text.now }
{
    let end = inner_front(text);
    is_name(&text[..end]) && is_path_rest(&text[end..])
}

/// Whether a name is one for clock number `i`: the first names, as many as are written, are names of the grammar, and
/// the others those of hidden clocks.
fn fits_clock(name: &[u8], i: u32, written: u32) -> bool
    ensures { result ≡ (if nat_lt i written then is_name name.now else is_hidden name.now) }
{
    if i < written {
        is_name(name)
    } else {
        is_hidden(name)
    }
}

/// Whether each name is one for its clock.
pub fn are_named(names: &Names, written: u32) -> bool
    ensures { IsTrue result ↔
        Each (λ i name. IsTrue (if nat_lt i written then is_name name else is_hidden name)) 0
        names.now }
{
    for i in 0..names.len() {
        if !fits_clock(names.get(i), i, written) {
            return false;
        }
    }
    true
}
