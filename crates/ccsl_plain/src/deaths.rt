//! The deaths of clocks over a list of steps.

ghost use Rattle.std.specs.Prelude.{◌≡◌};

use ccsl_base::Seq;

/// For each defined clock, in order, whether it is dead at each position from 0 on. A declared clock is never dead.
#[derive(Clone, Copy)]
pub struct Deaths<'t> {
    pub declared: u32,
    pub columns: &'t [Seq<bool>],
}

impl Deaths<'_> {
    ghost use Rattle.ccsl_plain.specs.Held.{gone_in};

    /// Whether a clock is dead at a position.
    pub fn is_gone(&self, at: usize, clock: u32) -> bool
        ensures { result ≡ gone_in self.now at clock }
    {
        if clock < self.declared {
            return false;
        }
        match self.columns.get((clock - self.declared) as usize) {
            Some(column) => match column.members().get(at) {
                Some(dead) => *dead,
                None => false,
            },
            None => false,
        }
    }
}
