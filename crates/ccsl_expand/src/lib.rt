//! The expansion of a file behind a library: names replaced by numbers, and calls of relations by their bodies.
//!
//! A call at line 3 of the system, `alternates(a, b);`, gives the lines of its body with the labels `alternates@3`,
//! and its hidden clock the name `alternates@3.next`. Declared clocks have the first numbers, then the system's
//! definitions, then the hidden ones:
//!
//!     let parts = expand(alloc, &library, &file)?;
//!
//! It is called for a file without a fault, whose totals are counted already, and wants nothing but memory.
//! Expressions are not unfolded: a call of an expression stays a call, to a group of the system.
//! Proved: the parts are those that the rules of ccsl_rules define of the two trees, name by name and item by item.
//! ccsl_elaborate calls it behind its tests, and makes the system of the parts. Its time is that of the lines that come
//! out, and each name is looked up in constant time.
#![tactic(auto)]

mod argument;
mod atom;
pub mod callee;
mod expand_file;
mod expression;
mod frame;
mod groups;
mod item;
mod naming;
mod path;
mod setting;
mod system;
mod tables;
mod term;
mod texts;
mod unfold;

pub use expand_file::expand;
