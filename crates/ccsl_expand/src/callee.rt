//! What a called name stands for.

ghost use Rattle.std.specs.Prelude.{◌≡◌, map};
ghost use Rattle.std.specs.Option.{option_map};
ghost use Rattle.ccsl_rules.specs.Spaces.{look};
ghost use Rattle.ccsl_spaces.specs.Callees.{seen_callee, seen_call};

use ccsl_ast::Spot;
use ccsl_spaces::{Callee, Space};

/// The relation or expression of a name.
pub fn callee<'a>(calls: &Space<'a, Callee<'a>>, name: &Spot) -> Option<Callee<'a>>
    ensures { option_map seen_callee result ≡
        option_map (λ k. k.what) (look name.now.name (map seen_call calls.now)) }
{
    match calls.find(name.name.bytes()) {
        Some(declaration) => Some(declaration.what),
        None => None,
    }
}
