//! What is true of the texts of specifications. A function here has a law as its contract, and does nothing.

ghost use Rattle.ccsl_spec.specs.Laws.{OneSystem, OneRefusal, NotBoth, SystemOrRefusal, SystemsAreAccepted};

use ccsl_accepts::laws::files_expand;
use ccsl_grammar::laws::{file_keeps, least_depth, one_verdict, reader_is_right};
use ccsl_lex::laws::tokens_or_fault;
use ccsl_library::laws::library_is_accepted;

/// A text is at most one system, or is refused with one line, and not both.
pub fn specifications_are_one()
    ensures system { OneSystem }
    ensures refusal { OneRefusal }
    ensures not_both { NotBoth }
{
    one_verdict();
}

/// Each text is a system or is refused.
pub fn specifications_exist()
    ensures { SystemOrRefusal }
{
    tokens_or_fault();
    reader_is_right();
}

/// The system of a text is accepted.
pub fn systems_are_accepted()
    ensures { SystemsAreAccepted }
{
    files_expand();
    library_is_accepted();
    file_keeps();
    least_depth();
}
