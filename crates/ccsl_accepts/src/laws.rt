//! These functions do nothing: each has a law as its contract.

ghost use Rattle.ccsl_accepts.specs.Acceptance.{FilesExpand, NamesAreDistinct, NamesAreNew};

/// A file that is not refused, behind a library that is accepted by itself, expands to an accepted system.
pub fn files_expand()
    ensures { FilesExpand }
{}

/// Where there is no fault, and no more clocks and constraints than a system may have, the names of the expansion are
/// distinct: each one is new behind those before it.
pub fn names_are_distinct()
    ensures distinct { NamesAreDistinct }
    ensures new { NamesAreNew }
{}
