//! The header of a value change dump with its scopes and variables, and paths that are looked up in it.
//!
//!     let mut reader = HeaderReader::new(alloc, keys, limits);
//!     reader.hear(at, b"$scope")?                 // whether this token ends the header
//!     let header = reader.into_header();
//!     resolve(&path, header.variables.as_slice()) // Found(target), Unknown or Ambiguous
//!
//! In go the tokens of a header one by one, each with the offset of its first byte; out comes what they declare: each
//! variable with its kind, size, path and the number of its code, and the words of `$timescale`. A path means the
//! variables whose scopes and name end with its parts; one that has just these parts wins. Brackets behind a name are
//! read by the variable's own range, up or down. The source is IEEE 1364-2005, clause 18.2; brackets behind a name are
//! what simulators write.
//!
//! Proved: exactly what the tokens declare, or the fault of one with its place; what a path means; which bits brackets
//! mean. Only tested: which variables `put_candidates` lists. ccsl_event_file and ccsl_triggers take its paths and
//! bits, ccsl_events and ccsl_follow read headers with it, and ccsl_show names variables.
#![tactic(auto)]

pub(crate) mod command;
pub mod header;
pub mod lookup;
pub mod path;
pub mod reader;
mod reference;
pub mod select;
pub mod show;
pub mod variable;

pub use header::Header;
pub use lookup::{Resolution, Target, resolve};
pub use path::Path;
pub use reader::HeaderReader;
pub use select::{Bits, Select, bits_of, select_of};
pub use show::{put_candidates, put_full_path};
pub use variable::{Kind, Variable};
