//! What is reported, and the exit status.

ghost use Rattle.std.specs.Prelude.{ℕ, List, IfOk, IfErr};
ghost use Rattle.ccsl_edge.specs.World.{State};
ghost use Rattle.ccsl_top.specs.Answered.{Answered, IsUnanswered};
ghost use Rattle.ccsl_top.specs.Headline.{Headline};

use crate::reply::{Reply, stop_code};
use ccsl_edge::{Slot, Stop, World, write_all};

/// Reports what the words have come to, by one call, and answers the exit status.
pub(crate) fn report<W: World>(world: &mut W, answer: Result<Reply, Stop>) -> u8
    ensures { (words : List (List ℕ)) (start : State) →
        IfOk answer (λ reply. Answered W.told words reply start (W.state world.old)) →
        IfErr answer (λ stop. IsUnanswered stop W.told words start (W.state world.old)) →
        Headline W.told words result start (W.state world.new) }
{
    let reply = match answer {
        Ok(reply) => reply,
        Err(stop) => return stop_code(stop),
    };
    match write_all(world, Slot::Report, reply.line.as_slice()) {
        Ok(()) => reply.status.code(),
        Err(_failed) => 5,
    }
}
