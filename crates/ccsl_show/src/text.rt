//! Why the text of a specification is refused.

use crate::hint::put_hint;
use ccsl_base::Memory;
use ccsl_follow::TextFault;
use ccsl_lex::{Token, tokens};
use ccsl_page::{Page, Piece, put_excerpt};
use std::alloc::Global;

// How many bytes the token has that begins at a place, one at least.
fn token_len(found: &[Token], at: usize) -> usize {
    match found.iter().find(|token| token.at == at) {
        Some(token) => token.end.saturating_sub(at).max(1),
        None => 1,
    }
}

// The tokens of a text, or of its front that has some.
fn tokens_up_to(alloc: Global, text: &[u8], at: usize) -> Vec<Token> {
    if let Ok(found) = tokens(alloc, text) {
        return found;
    }
    match tokens(alloc, &text[..at.min(text.len())]) {
        Ok(found) => found,
        Err(_) => Vec::new(alloc),
    }
}

/// Shows where and why a text is refused.
pub(crate) fn show_refused(
    alloc: Global,
    page: &mut Page,
    name: &str,
    text: &[u8],
    fault: TextFault,
) -> Result<(), Memory> {
    let Some(at) = fault.at() else {
        return Ok(());
    };
    let found = tokens_up_to(alloc, text, at);
    let mut hint = Page::new(alloc);
    put_hint(&mut hint, text, found.as_slice(), at, fault)?;
    let count = token_len(found.as_slice(), at);
    put_excerpt(page, name, text, at, count, &[Piece::Name(hint.bytes())])
}
