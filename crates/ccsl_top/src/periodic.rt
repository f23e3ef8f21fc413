//! The command `periodic`.

ghost use Rattle.std.specs.Prelude.{◌≡◌, ◌≢◌, false, IfOk, IfErr};
ghost use Rattle.ccsl_words.specs.Word.{is_finite};
ghost use Rattle.ccsl_top.specs.Periodic.{IsWritten, IsRelated, IsFiltered, IsPeriodicOutcome};
ghost use Rattle.ccsl_edge.specs.declared.stop.Stop.TheVariants as stop;
ghost use Rattle.ccsl_top.specs.Answered.{plain_reply};

use crate::reply::{Reply, Status};
use ccsl_base::Memory;
use ccsl_command::RelationName;
use ccsl_edge::Stop;
use ccsl_periodic::{Between, OnFault, canonical, compare, on, write};
use ccsl_report::{periodic_fails, periodic_holds, periodic_long, periodic_word};
use ccsl_words::Word;
use std::alloc::Global;

// The text of a word in its canonical spelling.
fn spelled(alloc: Global, word: &Word) -> Result<Vec<u8>, Memory>
    requires { is_finite word.now ≡ false }
    ensures { IfOk result (λ text. IsWritten word.now text.items) }
{
    let canonical = canonical(alloc, word)?;
    write(alloc, &canonical)
}

// Whether a relation holds between two filters.
fn related(
    alloc: Global,
    left: &Word,
    right: &Word,
    relation: RelationName,
    between: Between,
) -> Result<Reply, Memory>
    requires left { is_finite left.now ≡ false }
    requires right { is_finite right.now ≡ false }
    requires named { relation ≢ RelationName.On }
    ensures { IfOk result
        (λ reply. IsRelated left.now right.now relation between (plain_reply reply)) }
{
    let first = spelled(alloc, left)?;
    let second = spelled(alloc, right)?;
    match compare(left, right, between) {
        None => Ok(Reply {
            status: Status::Done,
            line: periodic_holds(alloc, &first, &second, relation)?,
        }),
        Some(k) => Ok(Reply {
            status: Status::No,
            line: periodic_fails(alloc, &first, &second, relation, k + 1)?,
        }),
    }
}

// The word of a filter of a filter.
fn filtered(alloc: Global, left: &Word, right: &Word) -> Result<Reply, Memory>
    requires left { is_finite left.now ≡ false }
    requires right { is_finite right.now ≡ false }
    ensures { IfOk result (λ reply. IsFiltered left.now right.now (plain_reply reply)) }
{
    match on(alloc, left, right) {
        Ok(word) => {
            let text = spelled(alloc, &word)?;
            Ok(Reply {
                status: Status::Done,
                line: periodic_word(alloc, &text)?,
            })
        }
        Err(OnFault::TooLong(letters)) => Ok(Reply {
            status: Status::No,
            line: periodic_long(alloc, letters)?,
        }),
        Err(OnFault::Memory) => Err(Memory),
    }
}

/// Says whether a relation holds between two periodic filters of one clock, for all lengths, or what a filter of a
/// filter is.
pub(crate) fn periodic(
    alloc: Global,
    left: &Word,
    right: &Word,
    relation: RelationName,
) -> Result<Reply, Stop>
    requires left { is_finite left.now ≡ false }
    requires right { is_finite right.now ≡ false }
    ensures reply { IfOk result (λ reply.
        IsPeriodicOutcome left.now right.now relation (plain_reply reply)) }
    ensures stop { IfErr result (λ reason. reason ≡ stop.Memory) }
{
    let reply = match relation {
        RelationName::Precedes => related(alloc, left, right, relation, Between::Precedes)?,
        RelationName::Subclock => related(alloc, left, right, relation, Between::Subclock)?,
        RelationName::Excludes => related(alloc, left, right, relation, Between::Excludes)?,
        RelationName::On => filtered(alloc, left, right)?,
    };
    Ok(reply)
}
