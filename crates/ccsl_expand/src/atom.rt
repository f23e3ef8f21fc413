//! What names stand for.

use ccsl_ast::Kind;
use ccsl_base::Text;

/// What a name of a body stands for: a clock of the system by its whole name, a number, a word of the table with an
/// offset, or, in the body of an expression, its own parameter with its kind.
pub enum Atom {
    Clock(Text),
    Number(u32),
    Word(u32, u64),
    Param(u32, Kind),
}

// By hand and not derived: to the prover, an early return then drops one by a single call.
impl Drop for Atom {
    fn drop(self) {
        match self {
            Atom::Clock(_whole) => {}
            Atom::Number(_) | Atom::Word(_, _) | Atom::Param(_, _) => {}
        }
    }
}
