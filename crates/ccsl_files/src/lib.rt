//! The real world: the files of the system, standard input and standard output, behind the slots of the program.
//!
//!     let words = command_words(&rt)?;            // those behind the program's name
//!     let keys = random_keys(&rt)?;               // what the hasher of strangers' names starts from
//!     let mut world = FileWorld::new(&rt, rt.alloc());
//!     run(&rt, rt.alloc(), keys, words.as_slice(), &mut world, &NoGate)
//!
//! An output that is a file is written beside its place and put there whole, by one renaming, where its slot is closed;
//! after a fault, or where it was not closed, nothing of it stays. Pipes, devices and what a process has open are
//! written as they stand. `NoAnswer` is why a program cannot begin or has no answer, with its status: 2, 5 or 6.
//!
//! What a file holds is not told, so this crate is trusted where others are proved. Its clauses say which slots are
//! open and how often a call failed, no more. ccsl_base_tests tries it over files that fail, and `tests/real_files`
//! tries the built program. The three programs use it.
#![tactic(auto)]

pub mod answer;
pub(crate) mod channel;
pub mod closing;
pub(crate) mod file_id;
pub mod file_world;
pub(crate) mod opening;
pub(crate) mod replacement;
pub(crate) mod target;

pub use answer::{NoAnswer, command_words, random_keys};
pub use closing::Close;
pub use file_world::FileWorld;
