//! The trees of a specification's text: what its parser makes, and its printer and elaborator read.
//!
//!     // a union (b delay 2)
//!     Tree::Binary(BinaryOp::Union, a, Box(Tree::Delay(b, 2)))
//!
//! Here `a` and `b` are `Tree::Name`. A `File` has a version, definitions of expressions and relations, and the lines
//! of its system. A name stands in a `Spot`, with the offset of its first byte in the text, from 0, so that a fault
//! found later still has its place.
//!
//! Whoever makes a `File` shows, by contract, that it has a text: names, numbers and quoted texts are within their
//! limits, no expression is deeper than level 128, and the forms of version 2 stand in that alone. The law
//! `every_file_is_kept` gives this back.
//!
//! Nothing here says what a name means; that is ccsl_rules. ccsl_parse makes the trees; ccsl_print, ccsl_elaborate and
//! the crates that this calls read them.
#![tactic(auto)]

pub mod definition;
pub mod file;
pub mod laws;
pub mod line;
pub mod spot;
pub mod term;
pub mod tree;

pub use definition::{Definition, Kind, Member, Param};
pub use file::File;
pub use line::{Relation, RelationLine, SystemLine};
pub use spot::Spot;
pub use term::{Argument, Prim, Primary, Sign, Term, Test, WordTerm};
pub use tree::{BinaryOp, Tree};
