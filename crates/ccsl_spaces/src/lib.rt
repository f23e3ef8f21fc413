//! Name spaces: which declaration a name stands for.
//!
//! A space is filled in the order of the text, and keeps for each name its first declaration; a later one is a
//! duplicate, and is told by its place:
//!
//!     let mut space = Space::new(alloc);
//!     space.add(name, since, Kind::Clock)?;  // false where the name is there
//!     space.find(b"req")                     // the declaration, with the place from which on it may be used
//!
//! There is one space a group of parameters, one a relation, one for the system, and one for what can be called.
//! Proved: what a look-up answers is what the rules say of the list of all declarations (`find` of ccsl_rules), and it
//! takes one look into an index. ccsl_faults asks it whether a name is there and of its kind, ccsl_expand what a name
//! stands for.
#![tactic(auto)]

pub mod callee;
pub mod calls;
pub mod declaration;
pub mod index;
pub mod locals;
pub mod space;

pub use callee::{Callee, Role};
pub use calls::{add_definitions, calls_space, find_call};
pub use declaration::Declaration;
pub use index::Index;
pub use locals::{params_space, relation_space, system_space};
pub use space::Space;
