//! Files.

ghost use Rattle.std.specs.Prelude.{◌≤◌, IsTrue};
ghost use Rattle.ccsl_base.specs.declared.limits.TheConstants.{MAX_LEVELS};
ghost use Rattle.ccsl_ast.specs.Plain.{plain_parts};
ghost use Rattle.ccsl_ast.specs.Kept.{file_kept};
ghost use Rattle.ccsl_ast.specs.Depth.{file_depth};

use crate::definition::Definition;
use crate::line::SystemLine;
use ccsl_base::Seq;

/// The tree of a specification's text: its definitions, and the lines of its system.
///
/// Whoever makes a file shows that it has a text: its version is 1 or 2, and in version 1 it has neither `upto weakly`
/// nor `precedes within`; its names are names of the grammar, its numbers are at most
/// [`MAX_NUMBER`](ccsl_base::MAX_NUMBER), its quoted texts have only bytes 32 to 126 other than `"`, no list is empty
/// that the grammar wants a member of, and no expression of its text stands deeper than level
/// [`MAX_LEVELS`](ccsl_base::MAX_LEVELS). The fields are public, since a file without these can't be written down.
#[derive(Drop)]
pub struct File {
    pub version: u32,
    pub definitions: Seq<Definition>,
    pub lines: Seq<SystemLine>,
    pub ghost kept: { IsTrue (file_kept (plain_parts version definitions lines)) },
    pub ghost depth: { file_depth (plain_parts version definitions lines) ≤ MAX_LEVELS },
}
