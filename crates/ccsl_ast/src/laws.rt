//! What is true of the depth of expressions, and of what a file keeps. Each function does nothing: its contract is the
//! law.

ghost use Rattle.std.specs.Prelude.{◌≤◌, IsTrue};
ghost use Rattle.ccsl_ast.specs.Depth.{file_depth};
ghost use Rattle.ccsl_ast.specs.Files.{plain_file};
ghost use Rattle.ccsl_ast.specs.Kept.{file_kept};
ghost use Rattle.ccsl_ast.specs.Levels.{DepthIsGreatest};
ghost use Rattle.ccsl_ast.specs.Worked.{DepthsAreWorked, FilesAreWorked};

use crate::file::File;
use ccsl_base::MAX_LEVELS;

/// Every file keeps what a text of the grammar has, and no expression in it stands deeper than level
/// [`MAX_LEVELS`].
pub fn every_file_is_kept(file: &File)
    ensures kept { IsTrue (file_kept (plain_file file.now)) }
    ensures depth { file_depth (plain_file file.now) ≤ MAX_LEVELS }
{}

/// The depth of an expression is the greatest level of an expression in its text.
pub fn depth_is_greatest()
    ensures { DepthIsGreatest }
{}

/// The worked examples of depth.
pub fn depths_are_worked()
    ensures { DepthsAreWorked }
{}

/// The worked examples of what a file may hold, and what it may not.
pub fn files_are_worked()
    ensures { FilesAreWorked }
{}
