//! The library: the relation `alternates` and the expressions `periodic`, `skip` and `filter_by`, that every
//! specification may use.
//!
//! It is a text of the language itself, `TEXT`, and is read as any other:
//!
//!     let library = library(alloc)?;
//!     let system = elaborate(alloc, &file, &library)?;
//!
//! Laws say what its members mean, as that `periodic(c, n)` ticks with each n-th tick of `c`, and that the library is
//! accepted by itself. That the text reads as the tree of the definitions is proved, so text and tree cannot part.
//! It is lexed and parsed each time a program starts, which takes less than a millisecond; want of memory is the only
//! error. ccsl_spec and ccsl_chain elaborate files behind it, and `docs/same-text` compares it with the guide's.
#![tactic(auto)]

pub mod laws;
mod source;

pub use source::{TEXT, library};
