//! The printer of specifications: the canonical text of a file.
//!
//!     let file = parse(alloc, tokens.as_slice())?;
//!     print(alloc, &file)?                        // "ccsl 1;\nsystem {\n  clock a, b;\n}\n"
//!
//! Each declaration has a line, what stands inside a system or a relation begins with two blanks, and there is no
//! parenthesis that the grammar does not ask for. Remarks are no part of the tree, and so they are not printed.
//!
//! Proved: the text is exactly the canonical one, its tokens parse to the same tree, places aside, and so it prints as
//! itself again. The only error is want of memory.
//!
//! The program does not print specifications: this crate stands beside it, for tools and tests, and no other one uses
//! it.
#![tactic(auto)]

mod definition;
mod edge;
mod expression;
pub mod laws;
mod line;
mod lines;
mod list;
mod page;
mod printer;
mod term;

pub use printer::print;
