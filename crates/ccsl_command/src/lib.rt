//! The words of a command line: which command they are, with which values, or what is wrong with them.
//!
//! Each word behind the command is `key=value`, in any order, each key once:
//!
//!     match words(alloc, list)? {
//!         Command::Judge { spec, trace, workers } => ..,
//!         ..
//!     }
//!
//! `Usage` is the first fault, by the place of its word, and a missing key where all words are right. No file is
//! opened here.
#![tactic(auto)]

mod build;
pub mod command;
pub mod command_line;
pub mod file_name;
mod pair;
pub mod table;
pub mod usage;
mod value;

pub use command::Command;
pub use command_line::words;
pub use file_name::FileName;
pub use table::{CommandName, Key, PolicyName, RelationName};
pub use usage::Usage;
