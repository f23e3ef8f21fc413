//! The items that lines of a certificate cite.

ghost use Rattle.std.specs.Prelude.{◌≡◌, ℕ, List, All, IfOk, true, length};
ghost use Rattle.ccsl_formula.specs.declared.scope.Scope.{Scope};
ghost use Rattle.ccsl_formula.specs.Formula.{Formula};
ghost use Rattle.ccsl_refute.specs.Validity.{is_certificate};
ghost use Rattle.ccsl_explain.specs.Core.{Block};
ghost use Rattle.ccsl_explain.specs.Used.{Cites, IsUsed, KeepsUsed};

use ccsl_base::Memory;
use ccsl_refute::Line;
use std::alloc::Global;

/// Marks the item that a line cites.
fn mark(used: &mut [bool], line: &Line)
    ensures keeps { KeepsUsed used.old used.new }
    ensures cites { Cites (IsUsed used.new) line.now }
{
    match line {
        Line::Nonempty => {}
        Line::Item(item, _) => {
            if (*item as usize) < used.len() {
                used[*item as usize] = true;
            }
        }
        Line::Derived(_, _) => {}
    }
}

/// For each of so many items whether lines cite it. Those that they cite block, if the lines are a certificate.
pub fn used_items(alloc: Global, lines: &[Line], items: usize) -> Result<Vec<bool>, Memory>
    ensures length { IfOk result (λ used. length used.items ≡ items) }
    ensures block { IfOk result (λ used. (scope : Scope) (formulas : List Formula) →
        is_certificate scope formulas lines.now ≡ true → Block scope formulas (IsUsed used.items)) }
{
    let mut used = vec![in alloc; false; items]?;
    for line in lines {
        mark(&mut used, line);
    }
    Ok(used)
}
