//! What acceptance gives: the expansion of an accepted file is an accepted system, and its names are distinct.
//!
//!     FilesExpand = (library file : PlainFile) → IsLibrary library → IsFile file → refusal library file ≡ None →
//!         IsAccepted (expand library file)
//!
//! There is no code here, but laws that ccsl_elaborate calls where it makes a `System` of the parts: that no call names
//! a group that is not there, that levels and places of calls are guarded, that words are read, that clocks,
//! constraints and cells are within their limits.
//!
//! `files_expand` is the law above. `names_are_distinct` wants no fault and few enough clocks and constraints, and says
//! that each name of the expansion is new behind those before it, which `expand` of ccsl_expand asks for.
//!
//! Both are proved for all files. ccsl_spec calls the first one too, for its law that the system of a text is accepted.
#![tactic(auto)]

pub mod laws;
