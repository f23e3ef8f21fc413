//! The core of items that block: each item in turn is taken out, if the others block without it.

ghost use Rattle.std.specs.Prelude.{◌≡◌, ◌<◌, Contains, IfOk, OnOk, length, map};
ghost use Rattle.ccsl_formula.specs.Plain.{plain};
ghost use Rattle.ccsl_explain.specs.Asked.{IsAsked};
ghost use Rattle.ccsl_explain.specs.Core.{Block, IsCore};
ghost use Rattle.ccsl_explain.specs.Deletion.{Stays};
ghost use Rattle.ccsl_explain.specs.Masked.{IsMasked};
ghost use Rattle.ccsl_explain.specs.Used.{IsUsed};

use crate::masked::{put_back, take_out};
use crate::refutation::refutation;
use crate::used::used_items;
use ccsl_base::Memory;
use ccsl_formula::{Formula, Scope};
use std::alloc::Global;

/// Whether an item stays. The used items block; one that is not among them goes without a question.
fn stays(
    alloc: Global,
    formulas: &mut [Formula],
    scope: &Scope,
    used: &mut Vec<bool>,
    item: u32,
) -> Result<bool, Memory>
    requires asked { IsAsked scope.now (map plain formulas.old) }
    requires item { item < length formulas.old }
    requires marks { length used.old.items ≡ length formulas.old }
    requires used { Block scope.now (map plain formulas.old) (IsUsed used.old.items) }
    ensures marks { OnOk result (length used.new.items ≡ length formulas.new) }
    ensures used { OnOk result (Block scope.now (map plain formulas.new) (IsUsed used.new.items)) }
    ensures stays { IfOk result (λ stays.
        Stays scope.now (map plain formulas.old) (map plain formulas.new) item stays) }
{
    let formula = take_out(formulas, item);
    if !used[item as usize] {
        return Ok(false);
    }
    match refutation(alloc, formulas, scope)? {
        None => {
            put_back(formulas, item, formula);
            Ok(true)
        }
        Some(lines) => {
            *used = used_items(alloc, lines.members(), formulas.len())?;
            Ok(false)
        }
    }
}

/// The core of items that block, as those that are used do. All others are taken out.
pub fn core_of(
    alloc: Global,
    formulas: &mut [Formula],
    scope: &Scope,
    mut used: Vec<bool>,
) -> Result<Vec<u32>, Memory>
    requires asked { IsAsked scope.now (map plain formulas.old) }
    requires marks { length used.items ≡ length formulas.old }
    requires used { Block scope.now (map plain formulas.old) (IsUsed used.items) }
    ensures core { IfOk result (λ core. IsCore scope.now (map plain formulas.old) core.items) }
    ensures masked { IfOk result (λ core.
        IsMasked (map plain formulas.old) (Contains core.items) (map plain formulas.new)) }
    ensures length { length formulas.new ≡ length formulas.old }
{
    let mut core = Vec::new(alloc);
    for item in 0..formulas.len() as u32 {
        if stays(alloc, formulas, scope, &mut used, item)? {
            core.push(item)?;
        }
    }
    Ok(core)
}
