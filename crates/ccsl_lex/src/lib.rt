//! The lexer of a specification's text: its tokens, longest from the left, or its first lexical fault.
//!
//!     tokens(alloc, b"a<b+12")?                   // the name a, `<`, the name b, `+`, the number 12
//!     tokens(alloc, b"a ? b")                     // Err(LexFault::BadByte(2))
//!
//! Blanks, tabs, line feeds and carriage returns part tokens, and `//` begins a remark to the end of its line. A token
//! has the offsets of its first byte and of the byte behind it, both from 0. A name has at most 64 bytes, a number is
//! at most 4,294,967,295, and a text in quotes has no line feed; where one of these fails the offset of the token's
//! first byte is told.
//!
//! Proved: each text has one such list or one first fault, not both, and this is the one that is answered, want of
//! memory aside. ccsl_parse takes the tokens, and ccsl_spec makes a line of the fault.
#![tactic(auto)]

mod byte;
pub mod fault;
pub mod laws;
mod lexer;
mod piece;
mod run;
pub mod token;

pub use ccsl_base::Reserved;
pub use fault::LexFault;
pub use lexer::tokens;
pub use token::{Token, TokenKind};
