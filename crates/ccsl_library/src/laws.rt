//! What is true of the library. These functions do nothing: each has a law as its contract.

ghost use Rattle.ccsl_ast.specs.Trees.{PlainFile};
ghost use Rattle.ccsl_accepts.specs.Acceptance.{IsLibrary};
ghost use Rattle.ccsl_library.specs.Library.{the_library};
ghost use Rattle.ccsl_library.specs.Laws.{HasTree, ComesFirst, LibraryTicks};

use crate::source::TEXT;

/// The library's tree is that of its text.
pub fn text_has_tree()
    ensures { HasTree TEXT.now the_library }
{}

/// The library is accepted by itself.
pub fn library_is_accepted()
    ensures { IsLibrary the_library }
{}

/// Whatever the file, its expansion behind the library begins with the library's groups, and the library's names stand
/// for them, and for its relation.
pub fn library_comes_first()
    ensures { (file : PlainFile) → ComesFirst file }
{}

/// In every accepted file, `filter_by(c, w)` ticks as `c filter w` does, `skip(c, n)` as `c delay n`, and `periodic(c,
/// n)` with each tick of `c` since its birth whose number is a multiple of `n`, never for 0.
pub fn members_tick()
    ensures { LibraryTicks }
{}
