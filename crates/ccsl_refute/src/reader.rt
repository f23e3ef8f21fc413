//! Reading the text of a certificate.

ghost use Rattle.std.specs.Prelude.{◌≡◌, ◌≤◌, ◌^◌, ◌<◌, ◌+◌, [], Some, None, Ok, IfOk, if◌then◌else◌, length};
ghost use Rattle.std.specs.List.{position_or_len};
ghost use Rattle.ccsl_base.specs.Decimal.{number_up_to};
ghost use Rattle.ccsl_refute.specs.Text.{is_line_feed, tokens};
ghost use Rattle.ccsl_refute.specs.FirstLine.{line_before};
ghost use Rattle.ccsl_refute.specs.Reading.{literal, read_literals, read_numbers, before_from, after_from, read_nonempty, read_item, read_derived};
ghost use Rattle.ccsl_refute.specs.Reading.{read_tokens, read_line, reading};
ghost use Rattle.ccsl_refute.specs.Read.{Reads, members};

use crate::fault::CertFault;
use crate::line::{Line, Lit};
use crate::token::{Token, Tokens};
use ccsl_base::{Names, Seq, decimal};
use std::alloc::Global;

/// The literal that a token names.
fn literal(text: &[u8], names: &Names) -> Option<Lit>
    ensures { result ≡ literal names.now text.now }
{
    let (name, positive) = match text {
        [b'-', name @ ..] => (name, false),
        name => (name, true),
    };
    let clock = names.find(name)?;
    Some(Lit { clock, positive })
}

/// The literals that the tokens left of a line name.
fn literals(alloc: Global, tokens: &mut Tokens, names: &Names) -> Result<Vec<Lit>, CertFault>
    ensures { Reads (λ v. v.items) (read_literals names.now tokens.old.0) result }
{
    let mut lits = Vec::new(alloc);
    'literals: while let Some(token) = tokens.next() {
        match literal(token.bytes, names) {
            Some(lit) => lits.push(lit)?,
            None => return Err(CertFault::UnknownName(token.at)),
        }
    }
    Ok(lits)
}

/// The numbers that the tokens left of a line write.
fn numbers(alloc: Global, tokens: &mut Tokens) -> Result<Vec<u64>, CertFault>
    ensures { Reads (λ v. v.items) (read_numbers tokens.old.0) result }
{
    let mut hints = Vec::new(alloc);
    'numbers: while let Some(token) = tokens.next() {
        match decimal(token.bytes, u64::MAX) {
            Some(hint) => hints.push(hint)?,
            None => return Err(CertFault::Syntax(token.at)),
        }
    }
    Ok(hints)
}

/// The literals before `from`, and whether it is there. The tokens behind it are left.
fn literals_before_from(
    alloc: Global,
    tokens: &mut Tokens,
    names: &Names,
) -> Result<(Vec<Lit>, bool), CertFault>
    ensures literals { Reads (λ r. r.0.items)
        (read_literals names.now (before_from tokens.old.0)) result }
    ensures from { IfOk result (λ r. after_from tokens.old.0
        ≡ (if r.1 then Some tokens.new.0 else None)) }
    ensures end { tokens.new.1 ≡ tokens.old.1 }
{
    let mut lits = Vec::new(alloc);
    'before_from: while let Some(token) = tokens.next() {
        if token.bytes == b"from".as_slice() {
            return Ok((lits, true));
        }
        match literal(token.bytes, names) {
            Some(lit) => lits.push(lit)?,
            None => return Err(CertFault::UnknownName(token.at)),
        }
    }
    Ok((lits, false))
}

/// What stands behind `n`.
fn nonempty(tokens: &mut Tokens) -> Result<Line, CertFault>
    ensures { Reads (λ line. line) (read_nonempty tokens.old.0) result }
{
    match tokens.next() {
        None => Ok(Line::Nonempty),
        Some(token) => Err(CertFault::Syntax(token.at)),
    }
}

/// What stands behind `i`.
fn item(alloc: Global, tokens: &mut Tokens, names: &Names) -> Result<Line, CertFault>
    ensures { Reads (λ line. line) (read_item names.now tokens.old.1 tokens.old.0) result }
{
    let Some(token) = tokens.next() else {
        return Err(CertFault::Syntax(tokens.end()));
    };
    let Some(item) = item_number(token.bytes) else {
        return Err(CertFault::Syntax(token.at));
    };
    let lits = literals(alloc, tokens, names)?;
    Ok(Line::Item(item, Seq::new(lits)))
}

/// The number of an item.
fn item_number(text: &[u8]) -> Option<u32>
    ensures { result ≡ number_up_to u32.MAX text.now }
{
    let item = decimal(text, u64::from(u32::MAX))?;
    Some(item as u32)
}

/// What stands behind `r`.
fn derived(alloc: Global, tokens: &mut Tokens, names: &Names) -> Result<Line, CertFault>
    ensures { Reads (λ line. line) (read_derived names.now tokens.old.1 tokens.old.0) result }
{
    let (lits, has_from) = literals_before_from(alloc, tokens, names)?;
    if !has_from {
        return Err(CertFault::Syntax(tokens.end()));
    }
    let hints = numbers(alloc, tokens)?;
    Ok(Line::Derived(Seq::new(lits), Seq::new(hints)))
}

/// A line that has tokens, of which the first one says what it is.
fn line_of(
    alloc: Global,
    first: Token,
    tokens: &mut Tokens,
    names: &Names,
) -> Result<Line, CertFault>
    ensures { Reads (λ line. line)
        (read_tokens names.now tokens.old.1 (first.entry.at, first.entry.bytes.now) tokens.old.0)
        result }
{
    if first.bytes == b"n".as_slice() {
        nonempty(tokens)
    } else if first.bytes == b"i".as_slice() {
        item(alloc, tokens, names)
    } else if first.bytes == b"r".as_slice() {
        derived(alloc, tokens, names)
    } else {
        Err(CertFault::Syntax(first.at))
    }
}

/// How many bytes the first line of a text has before its line feed.
fn line_len(text: &[u8]) -> usize
    ensures len { result ≡ position_or_len is_line_feed text.now }
    ensures within { result ≤ length text.now }
{
    text.iter().take_while(|b| **b != b'\n').count()
}

/// The first line of a text, without the one carriage return before its line feed.
fn first_line(text: &[u8], len: usize) -> &[u8]
    requires { len ≤ length text.now }
    ensures line { result.now ≡ line_before len text.now }
    ensures within { length result.now ≤ len }
{
    match &text[..len] {
        [line @ .., b'\r'] if len < text.len() => line,
        line => line,
    }
}

/// The line at a place of the text, or `None` where it has no token.
fn line_at(alloc: Global, at: usize, line: &[u8], names: &Names) -> Result<Option<Line>, CertFault>
    requires { at + length line.now < 2 ^ 64 }
    ensures { Reads members
        (read_line names.now (at + length line.now) (tokens at line.now) (Ok [])) result }
{
    let mut tokens = Tokens::of(at, line);
    match tokens.next() {
        None => Ok(None),
        Some(first) => Ok(Some(line_of(alloc, first, &mut tokens, names)?)),
    }
}

/// Reads the lines of a certificate.
pub fn read(alloc: Global, text: &[u8], names: &Names) -> Result<Vec<Line>, CertFault>
    ensures { Reads (λ v. v.items) (reading names.now text.now) result }
{
    let mut lines = Vec::new(alloc);
    let mut at = 0;
    'lines: while at < text.len() {
        let rest = &text[at..];
        let len = line_len(rest);
        let found = line_at(alloc, at, first_line(rest, len), names)?;
        if let Some(line) = found {
            lines.push(line)?;
        }
        at += len + 1;
    }
    Ok(lines)
}
