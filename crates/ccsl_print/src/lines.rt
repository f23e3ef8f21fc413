//! What stands on lines of its own.

ghost use Rattle.std.specs.Prelude.{◌≡◌, OnOk};
ghost use Rattle.std.specs.List.{flat_map};
ghost use Rattle.ccsl_print.specs.Pages.{lines_after};

use crate::page::Page;
use ccsl_base::Memory;

/// What has lines.
pub trait Lined {
    ghost use Rattle.std.specs.Prelude.{List};
    ghost use Rattle.ccsl_grammar.specs.Canonical.{TextLine};

    ghost lines: { Self → List TextLine };

    fn put_lines(&self, page: &mut Page) -> Result<(), Memory>
        ensures { OnOk result (page.new ≡ lines_after page.old (lines self.now)) };
}

/// Writes the lines of each.
pub fn put_all<T: Lined>(page: &mut Page, items: &[T]) -> Result<(), Memory>
    ensures { OnOk result (page.new ≡ lines_after page.old (flat_map T.lines items.now)) }
{
    for item in items {
        item.put_lines(page)?;
    }
    Ok(())
}
