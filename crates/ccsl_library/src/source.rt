//! The library's text and its tree.

ghost use Rattle.std.specs.Prelude.{◌≡◌, IfOk};
ghost use Rattle.ccsl_ast.specs.Files.{plain_file};
ghost use Rattle.ccsl_accepts.specs.Acceptance.{IsLibrary};
ghost use Rattle.ccsl_library.specs.Library.{the_library};

use ccsl_ast::File;
use ccsl_base::Memory;
use ccsl_lex::tokens;
use ccsl_parse::parse;
use std::alloc::Global;

/// The text of the library.
pub const TEXT: &[u8] = b"ccsl 1;
relation alternates(clock a, clock b) {
  define next = a delay 1;
  a precedes b;
  b precedes next;
}
expression periodic(clock c, number n) = (c await n) then periodic(c, n);
expression skip(clock c, number n) =
  if n = 0 use c else (never upto (c await n)) then c;
expression filter_by(clock c, word w) =
  if ended w use never
  else if head w use (c await 1) then filter_by(c, tail w)
  else (never upto c) then filter_by(c, tail w);
system { }
";

/// The tree of [`TEXT`]. It has no lines of a system: those are of the specification that uses it.
pub fn library(alloc: Global) -> Result<File, Memory>
    ensures tree { IfOk result (λ file. plain_file file ≡ the_library) }
    ensures accepted { IfOk result (λ file. IsLibrary (plain_file file)) }
{
    let Ok(found) = tokens(alloc, TEXT) else {
        return Err(Memory);
    };
    match parse(alloc, found.as_slice()) {
        Ok(file) => Ok(file),
        Err(_) => Err(Memory),
    }
}
