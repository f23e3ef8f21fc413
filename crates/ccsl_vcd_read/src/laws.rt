//! What the definitions mean. This function does nothing: it has laws as its contract.

ghost use Rattle.std.specs.Prelude.{ℕ, List};
ghost use Rattle.ccsl_vcd.specs.declared.limits.Limits.{Limits};
ghost use Rattle.ccsl_vcd.specs.Binding.{Wanted};
ghost use Rattle.ccsl_vcd.specs.Rows.{recorded};
ghost use Rattle.ccsl_vcd.specs.Completed.{done};
ghost use Rattle.ccsl_vcd_read.specs.Order.{AreInOrder};

/// The rows of every text come in strictly ascending time, and each has a tick: those of a whole file, and those that
/// its first bytes complete.
pub fn rows_in_order()
    ensures whole { (w : Wanted) (l : Limits) (file : List ℕ) → AreInOrder (recorded w l file) }
    ensures front { (w : Wanted) (l : Limits) (bytes : List ℕ) → AreInOrder (done w l bytes) }
{}
