//! The names of clocks, one after another, and the table of them.

ghost use Rattle.std.specs.Prelude.{◌≡◌, ◌≤◌, [], ◌∷◌, ◌++◌, length, IfOk, OnOk};
ghost use Rattle.ccsl_base.specs.declared.limits.TheConstants.{MAX_CLOCKS};
ghost use Rattle.ccsl_expand.specs.Bounds.{AreNew};

use ccsl_base::{Memory, Names, Text};
use std::alloc::Global;

/// Adds a name to a list.
pub fn push_name(alloc: Global, names: &mut Vec<Text>, name: &[u8]) -> Result<(), Memory>
    ensures { OnOk result (names.new.items ≡ names.old.items ++ name.now ∷ []) }
{
    let text = Text::new(Vec::from_slice(alloc, name)?);
    names.push(text)?;
    Ok(())
}

/// The table of names, of which each is new behind those before it.
pub fn table(alloc: Global, names: &[Text]) -> Result<Names, Memory>
    requires new { AreNew names.now }
    requires few { length names.now ≤ MAX_CLOCKS }
    ensures { IfOk result (λ table. table ≡ names.now) }
{
    let mut table = Names::new(alloc);
    for name in names {
        table.add(name.bytes())?;
    }
    Ok(table)
}
