//! Lists with commas.

ghost use Rattle.std.specs.Prelude.{◌≡◌, OnOk};
ghost use Rattle.std.specs.List.{flat_map};
ghost use Rattle.ccsl_grammar.specs.Grammar.{further_spelled, list_spelled};
ghost use Rattle.ccsl_print.specs.Pages.{after};

use crate::page::Page;
use ccsl_base::Memory;

/// What has tokens.
pub trait Spelled {
    ghost use Rattle.std.specs.Prelude.{List};
    ghost use Rattle.ccsl_grammar.specs.Terminals.{Terminal};

    ghost tokens: { Self → List Terminal };

    fn put(&self, page: &mut Page) -> Result<(), Memory>
        ensures { OnOk result (page.new ≡ after page.old (tokens self.now)) };
}

/// Writes each with a comma before it.
fn put_further<T: Spelled>(page: &mut Page, items: &[T]) -> Result<(), Memory>
    ensures { OnOk result (page.new ≡ after page.old
        (flat_map (further_spelled T.tokens) items.now)) }
{
    for item in items {
        page.symbol(b',')?;
        item.put(page)?;
    }
    Ok(())
}

/// Writes each, with commas between them.
pub fn put_list<T: Spelled>(page: &mut Page, items: &[T]) -> Result<(), Memory>
    ensures { OnOk result (page.new ≡ after page.old (list_spelled T.tokens items.now)) }
{
    match items {
        [] => Ok(()),
        [first, rest @ ..] => {
            first.put(page)?;
            put_further(page, rest)
        }
    }
}
