//! The parser of a specification's tokens: their tree, or the first fault.
//!
//!     let found = tokens(alloc, text)?;
//!     let file = parse(alloc, found.as_slice())?;
//!
//! A fault has the offset of the first token with which no text of the grammar goes on, or of the text's end; `TooDeep`
//! comes where an expression stands at level 129. Offsets count bytes from 0 in the text. A reader of a part takes
//! tokens and gives back its tree with those that are left: `expr_at` reads an expression, `param_at` a parameter.
//!
//! Proved: the answer is the one tree that ccsl_grammar has for the tokens, or the least place of a fault, or the first
//! expression that is too deep, each exactly where it is so; want of memory aside. Measured, not proved: its time is
//! linear, and its stack grows with the levels alone.
//!
//! ccsl_spec and ccsl_library parse by it, and ccsl_follow once more for what is shown.
#![tactic(auto)]

mod argument;
mod definition;
mod expression;
mod fault;
mod leaf;
mod line;
mod list;
mod operator;
mod param;
mod parser;
mod relation;
mod repeat;
mod room;
mod stop;
mod term;
mod test;

pub use fault::ParseFault;
pub use parser::parse;
