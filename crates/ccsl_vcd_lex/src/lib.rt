//! The tokens of a value change dump, over any cutting of its bytes.
//!
//!     let fed = tokenizer.feed_run(piece)?;       // bytes taken, and the span of a token that ended
//!     tokenizer.token()                           // its bytes, until more is fed
//!     tokenizer.finish()                          // the last one, which may end with the file
//!
//! Tokens are parted by blanks and line ends, whatever pieces the bytes come in; a token has at most 65,536 bytes. An
//! error is `TokenTooLong`, with the offset of the token's first byte, from 0, as soon as it has one byte too many.
//!
//! `code_at_front` is the quick way past it: a code of one to three bytes that stands whole in the piece, with its
//! place in a table of 839,514 places, which no other code has.
//!
//! Proved: the tokens are the longest runs of bytes that are not white space, and what is settled stays so whatever
//! follows. ccsl_vcd_read reads with all of it, ccsl_events without the `Tokenizer`.
#![tactic(auto)]

pub mod laws;
pub mod scan;
pub mod short_code;
pub mod span;
pub mod tokenizer;

pub use scan::{is_space, run_end};
pub use short_code::{SHORT, ShortCode, are_visible, code_at_front, place_of};
pub use span::{Fed, Span, TokenTooLong};
pub use tokenizer::Tokenizer;
