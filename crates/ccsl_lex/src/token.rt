//! Tokens.

ghost use Rattle.std.specs.Prelude.{IsTrue};
ghost use Rattle.ccsl_lex.specs.Kept.{kind_kept};

use ccsl_base::Reserved;
use ccsl_base::text::Text;

/// What a token is. A quoted text has the bytes between its quotes, a symbol its byte.
#[derive(Drop)]
pub enum TokenKind {
    Name(Text),
    Num(u32),
    Quoted(Text),
    Word(Reserved),
    Symbol(u8),
}

/// A token, with the offset of its first byte in the text and of the byte behind it.
///
/// A name is a NAME of the grammar, of at most 64 bytes; a quoted text has only bytes 32 to 126 other than `"`.
#[derive(Drop)]
pub struct Token {
    pub at: usize,
    pub end: usize,
    pub kind: TokenKind,
    pub ghost kept: { IsTrue (kind_kept kind) },
}
