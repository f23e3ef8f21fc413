//! What written traces are worth. The functions do nothing: each has a law as its contract.

ghost use Rattle.std.specs.Prelude.{◌≡◌, ◌≤◌, ℕ, List, All, IsTrue, length, map};
ghost use Rattle.std.specs.List.{range_with_len};
ghost use Rattle.ccsl_base.specs.Clocks.{is_ascending};
ghost use Rattle.ccsl_vcd.specs.Reading.{reading};
ghost use Rattle.ccsl_vcd.specs.Rows.{IsRead, bound_at, recorded};
ghost use Rattle.ccsl_bind.specs.Collected.{wanted_of};
ghost use Rattle.ccsl_vcd_write.specs.Text.{vcd_text};
ghost use Rattle.ccsl_vcd_write.specs.ReadsBack.{IsReadable, rows_of_steps};

use ccsl_base::{MAX_FILE_BYTES, MAX_STEPS};
use ccsl_kernel::System;
use ccsl_vcd::Limits;

/// A written trace that keeps to the limits is read without a fault. Every written clock is bound in it, and its rows
/// are the steps that were written: row `k` has time `k` and the written clocks of step `k`.
pub fn read_back(system: &System, limits: Limits)
    ensures read { (steps : List (List ℕ)) → IsReadable system.now limits steps →
        IsRead (wanted_of system.now) limits (vcd_text system.now steps) }
    ensures bound { (steps : List (List ℕ)) → IsReadable system.now limits steps →
        map (λ b. b.clock)
        (bound_at (reading (wanted_of system.now) limits (vcd_text system.now steps)).place)
        ≡ range_with_len 0 system.now.written }
    ensures rows { (steps : List (List ℕ)) → IsReadable system.now limits steps →
        recorded (wanted_of system.now) limits (vcd_text system.now steps)
        ≡ rows_of_steps system.now steps }
{
    system.names().are_distinct();
}

/// A written trace of at most [`MAX_STEPS`] steps, each a set of clocks, has at most [`MAX_FILE_BYTES`] bytes.
pub fn texts_fit(system: &System)
    ensures { (steps : List (List ℕ)) → All (λ step. IsTrue (is_ascending step)) steps →
        length steps ≤ MAX_STEPS → length (vcd_text system.now steps) ≤ MAX_FILE_BYTES }
{
    system.names().are_distinct();
}
