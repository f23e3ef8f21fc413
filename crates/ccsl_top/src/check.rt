//! The command `check`.

ghost use Rattle.std.specs.Prelude.{◌≡◌, IfOk, IfErr};
ghost use Rattle.ccsl_edge.specs.declared.stop.Stop.TheVariants as stop;
ghost use Rattle.ccsl_top.specs.Check.{check_outcome};
ghost use Rattle.ccsl_top.specs.Answered.{plain_reply};

use crate::reply::{Reply, Status};
use ccsl_edge::Stop;
use ccsl_kernel::System;
use ccsl_report::checked;
use std::alloc::Global;

/// Says that a specification is accepted.
pub(crate) fn check(alloc: Global, system: &System) -> Result<Reply, Stop>
    ensures reply { IfOk result (λ reply. plain_reply reply ≡ check_outcome system.now) }
    ensures stop { IfErr result (λ reason. reason ≡ stop.Memory) }
{
    Ok(Reply {
        status: Status::Done,
        line: checked(alloc, system)?,
    })
}
