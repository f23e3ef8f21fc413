//! The lexer.

ghost use Rattle.std.specs.Prelude.{◌≡◌, ◌⊎◌, List, map, Err, IfOk, IfErr, IsOkAnd};
ghost use Rattle.ccsl_lex.specs.Tokens.{PlainToken, plain_token, AreTokens, IsFirstFault};
ghost use Rattle.ccsl_lex.specs.Found.{UnlessMemory};

use crate::fault::LexFault;
use crate::piece::{Piece, piece_at};
use crate::token::Token;
use std::alloc::Global;

/// The tokens of a text, longest from the left, or its first fault. White space and comments are left out.
pub fn tokens(alloc: Global, text: &[u8]) -> Result<Vec<Token>, LexFault>
    ensures tokens { IfOk result (λ found. AreTokens text.now (map plain_token found.items)) }
    ensures fault { IfErr result (λ e. UnlessMemory e (IsFirstFault e text.now)) }

    // Each answer comes wherever it is true of the text, unless memory runs out.
    ensures each_tokens { (ts : List PlainToken) → AreTokens text.now ts
        → IsOkAnd result (λ found. map plain_token found.items ≡ ts)
        ⊎ (result ≡ Err LexFault.Memory) }
    ensures each_fault { (e : LexFault) → IsFirstFault e text.now
        → (result ≡ Err e) ⊎ (result ≡ Err LexFault.Memory) }
{
    let mut found = Vec::new(alloc);
    let mut at = 0;
    'pieces: while at < text.len() {
        let Piece { len, kind } = piece_at(alloc, at, &text[at..])?;
        let end = at + len;
        match kind {
            Some(kind) => found.push(Token { at, end, kind })?,
            None => {}
        }
        at = end;
    }
    Ok(found)
}
