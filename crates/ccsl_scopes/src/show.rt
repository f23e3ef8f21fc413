//! Full paths, as they may be written in a path, and the variables that a path may mean.

use crate::lookup::{Resolution, ends_in, resolve};
use crate::path::Path;
use crate::select::Select;
use crate::variable::Variable;
use ccsl_base::{Memory, is_inner};
use itoa::Buffer;

/// The most variables that are listed.
pub const MOST_CANDIDATES: usize = 20;

fn is_simple(part: &[u8]) -> bool {
    !part.is_empty() && part.iter().all(|b| is_inner(*b) || *b == b'$')
}

// A part, in quotes where it is no simple identifier.
fn put_part(part: &[u8], out: &mut Vec<u8>) -> Result<(), Memory> {
    if is_simple(part) {
        out.extend_from_slice(part)?;
        return Ok(());
    }
    out.push(b'"')?;
    out.extend_from_slice(part)?;
    out.push(b'"')?;
    Ok(())
}

fn put_number(n: u32, out: &mut Vec<u8>) -> Result<(), Memory> {
    let mut digits = Buffer::new();
    out.extend_from_slice(digits.format(n).as_bytes())?;
    Ok(())
}

fn put_range(range: Select, out: &mut Vec<u8>) -> Result<(), Memory> {
    match range {
        Select::Whole => {}
        Select::Bit(i) => {
            out.push(b'[')?;
            put_number(i, out)?;
            out.push(b']')?;
        }
        Select::Range(left, right) => {
            out.push(b'[')?;
            put_number(left, out)?;
            out.push(b':')?;
            put_number(right, out)?;
            out.push(b']')?;
        }
    }
    Ok(())
}

/// Appends the names of a variable's scopes and its own with dots between, and what stands in brackets behind it.
pub fn put_full_path(variable: &Variable, out: &mut Vec<u8>) -> Result<(), Memory> {
    let mut is_first = true;
    for part in variable.bare_path().split(|b| *b == b' ') {
        if !is_first {
            out.push(b'.')?;
        }
        is_first = false;
        put_part(part, out)?;
    }
    put_range(variable.range, out)
}

fn lower(b: u8) -> u8 {
    if b >= b'A' && b <= b'Z' { b + 32 } else { b }
}

fn is_same_text(a: &[u8], b: &[u8]) -> bool {
    a.len() == b.len() && a.iter().zip(b.iter()).all(|(x, y)| lower(*x) == lower(*y))
}

// Whether names end with these parts, whatever the case of the letters.
fn ends_in_any_case(text: &[u8], parts: &[u8]) -> bool {
    if parts.len() >= text.len() {
        return is_same_text(text, parts);
    }
    let at = text.len() - parts.len();
    text[at - 1] == b' ' && is_same_text(&text[at..], parts)
}

// All parts but the last, if there are several.
fn without_last(parts: &[u8]) -> Option<&[u8]> {
    let mut found = None;
    for (i, b) in parts.iter().enumerate() {
        if *b == b' ' {
            found = Some(i);
        }
    }
    match found {
        Some(end) => Some(&parts[..end.min(parts.len())]),
        None => None,
    }
}

fn has_same_scopes(name: &[u8], parts: &[u8]) -> bool {
    match (without_last(name), without_last(parts)) {
        (Some(scopes), Some(wanted)) => ends_in(scopes, wanted),
        _ => false,
    }
}

// Whether a variable may be meant by a path that means several, or none.
fn is_near(path: &Path, resolution: Resolution, variable: &Variable) -> bool {
    let name = variable.bare_path();
    let parts = path.parts.as_slice();
    match resolution {
        Resolution::Found(_) => false,
        Resolution::Ambiguous => {
            ends_in(name, parts) || ends_in(variable.path.as_slice(), parts)
        }
        Resolution::Unknown => ends_in_any_case(name, parts) || has_same_scopes(name, parts),
    }
}

/// Appends the full paths and the sizes of at most twenty variables that a path may mean, which means several or none:
/// in the first case those that it fits, in the other those that differ in the case of letters, or in the last part
/// alone.
pub fn put_candidates(
    path: &Path,
    variables: &[Variable],
    out: &mut Vec<u8>,
) -> Result<(), Memory> {
    let resolution = resolve(path, variables);
    let mut count = 0;
    for variable in variables {
        if count < MOST_CANDIDATES && is_near(path, resolution, variable) {
            out.extend_from_slice(if count == 0 { b" " } else { b", " })?;
            put_full_path(variable, out)?;
            out.extend_from_slice(b" (")?;
            put_number(variable.size, out)?;
            out.push(b')')?;
            count += 1;
        }
    }
    Ok(())
}
