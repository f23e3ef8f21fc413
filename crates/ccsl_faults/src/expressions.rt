//! Expressions.
#![tactic(auto, using(crate::proofs::Least::the_least))]

ghost use Rattle.std.specs.Prelude.{◌≡◌, ◌||◌, nat_lt, IfOk};
ghost use Rattle.ccsl_base.specs.declared.limits.TheConstants.{MAX_DELAY};
ghost use Rattle.ccsl_ast.specs.Plain.{plain};
ghost use Rattle.ccsl_rules.specs.Faults.{least, where_so};
ghost use Rattle.ccsl_rules.specs.Faults as causes;
ghost use Rattle.ccsl_rules.specs.Uses as rules;
ghost use Rattle.ccsl_faults.specs.Scenes.{seen_scene};

use crate::calls::call_faults;
use crate::cause::Cause;
use crate::fault::{Fault, earlier, where_so};
use crate::scene::Scene;
use crate::uses::{term_faults, test_faults, used_as, word_faults};
use ccsl_ast::{BinaryOp, Kind, Tree};
use ccsl_base::{MAX_DELAY, Memory};
use ccsl_kernel::Position;

/// The place of an operator's right operand.
fn right_of(op: BinaryOp, position: Position) -> Position
    ensures { result ≡ rules.right_of op position }
{
    match (op, position) {
        (BinaryOp::Then, Position::Tail | Position::Guarded) => Position::Guarded,
        _ => Position::Inner,
    }
}

/// The number of `delayed`.
fn delay_faults(at: usize, count: u32) -> Option<Fault>
    ensures { result ≡ least
        (where_so (nat_lt count 1 || nat_lt MAX_DELAY count) causes.Arguments at) }
{
    where_so(count < 1 || MAX_DELAY < count, Cause::Arguments, at)
}

/// An expression at a position.
pub(crate) fn expression_faults(
    scene: &Scene,
    position: Position,
    tree: &Tree,
) -> Result<Option<Fault>, Memory>
    ensures { IfOk result (λ fault. fault ≡
        least (rules.expr_faults (seen_scene scene.now) position (plain tree.now))) }
{
    match tree {
        Tree::Name(name) => Ok(used_as(scene, Kind::Clock, name)),
        Tree::Call(name, arguments) => {
            call_faults(scene, false, position, name, arguments.members())
        }
        Tree::Never => Ok(None),
        Tree::Binary(op, left, right) => {
            let first = expression_faults(scene, Position::Inner, left)?;
            let second = expression_faults(scene, right_of(*op, position), right)?;
            Ok(earlier(first, second))
        }
        Tree::Delay(operand, count) | Tree::Await(operand, count) => {
            let first = expression_faults(scene, Position::Inner, operand)?;
            Ok(earlier(first, term_faults(scene, count)))
        }
        Tree::Filter(operand, word) => {
            let first = expression_faults(scene, Position::Inner, operand)?;
            Ok(earlier(first, word_faults(scene, word)?))
        }
        Tree::Delayed(operand, at, count, base) => {
            let first = expression_faults(scene, Position::Inner, operand)?;
            let second = expression_faults(scene, Position::Inner, base)?;
            Ok(earlier(earlier(first, delay_faults(*at, *count)), second))
        }
        Tree::If(test, then, other) => {
            let first = expression_faults(scene, position, then)?;
            let second = expression_faults(scene, position, other)?;
            Ok(earlier(earlier(test_faults(scene, test), first), second))
        }
    }
}
