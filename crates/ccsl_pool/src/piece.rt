//! What takes the rows of a block.

ghost use Rattle.std.specs.Prelude.{List};
ghost use Rattle.ccsl_base.specs.declared.rows.Row.{Row};

use ccsl_base::Block;

/// A piece of work over rows, such as the monitor of one item.
pub trait Piece: Send {
    /// When a piece may take these rows.
    ghost can_take: { Self → List Row → Type 0 };

    /// What taking these rows makes of a piece: the piece before, the rows, and the piece after.
    ghost takes: { Self → List Row → Self → Type 0 };

    /// Takes the rows of a block as the next ones.
    fn work(&mut self, block: &Block)
        requires { can_take self.old block.now.rows }
        ensures { takes self.old block.now.rows self.new };
}
