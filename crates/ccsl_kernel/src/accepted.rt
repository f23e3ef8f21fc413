//! Which parts make a system: one test a sentence of what accepted systems are.

ghost use Rattle.std.specs.Prelude.{◌≡◌, ◌+◌, ◌^◌, ◌<◌, ◌≤◌, ◌↔◌, IsTrue, IfOk, All, map, length};
ghost use Rattle.ccsl_kernel.specs.Plain.{plain_expr, plain_body, plain_group, plain_system};
ghost use Rattle.ccsl_kernel.specs.Accepted.{Each, IsBody, IsDefinition, IsRelation, IsConstraint, IsAccepted};
ghost use Rattle.ccsl_kernel.specs.AcceptedPieces.{IsCounted, IsWellFormed};

use crate::accepted::calls::is_allowed;
use crate::accepted::depth::is_shallow;
use crate::accepted::known::{Nameable, is_known};
use crate::accepted::levels::are_low;
use crate::accepted::names::are_named;
use crate::constraint::{Constraint, RelationKind};
use crate::expr::Expr;
use crate::group::{Body, Group};
use crate::parts::Parts;
use crate::position::Position;
use ccsl_base::{MAX_CELLS, MAX_CLOCKS, MAX_CONSTRAINTS, MAX_LEVELS, MAX_PARAMS, Memory};
use std::alloc::Global;

mod calls;
pub mod cells;
mod depth;
mod known;
mod levels;
mod names;

/// Whether the numbers of clocks, definitions and constraints agree, and are below their limits.
fn are_counted(parts: &Parts) -> bool
    ensures { IsTrue result ↔ IsCounted (plain_system parts.now) }
{
    let names = parts.names.len();
    parts.declared <= parts.written
        && parts.written <= names
        && names <= MAX_CLOCKS
        && parts.definitions.members().len() == (names - parts.declared) as usize
        && parts.constraints.members().len() <= MAX_CONSTRAINTS as usize
}

/// Whether a member of group number `group` is as it has to be.
fn is_body(parts: &Parts, group: usize, body: &Body) -> bool
    ensures { IsTrue result ↔ IsBody (plain_system parts.now) group (plain_body body.now) }
{
    let params = body.params.members();
    let here = Nameable {
        groups: parts.groups.members(),
        words: parts.words.members(),
        clocks: 0,
        params,
    };
    params.len() <= MAX_PARAMS as usize
        && is_shallow(&body.root, MAX_LEVELS)
        && is_allowed(&body.root, group, Position::Tail)
        && is_known(&here, &body.root)
}

/// Whether each member of group number `group` is as it has to be.
fn are_members(parts: &Parts, group: usize, members: &[Body]) -> bool
    ensures { IsTrue result ↔
        All (λ body. IsBody (plain_system parts.now) group (plain_body body)) members.now }
{
    members.iter().all(|body| is_body(parts, group, body))
}

/// Whether each member of each group is as it has to be.
fn are_bodies(parts: &Parts, groups: &[Group]) -> bool
    ensures { let K = plain_system parts.now in
        IsTrue result ↔ Each (λ g members. All (IsBody K g) members) 0
        (map plain_group groups.now) }
{
    for (i, group) in groups.iter().enumerate() {
        if !are_members(parts, i, group.members.members()) {
            return false;
        }
    }
    true
}

/// Whether the definition of clock number `clock` is as it has to be.
fn is_definition(parts: &Parts, clock: u32, definition: &Expr) -> bool
    ensures { IsTrue result ↔
        IsDefinition (plain_system parts.now) clock (plain_expr definition.now) }
{
    let groups = parts.groups.members();
    let here = Nameable {
        groups,
        words: parts.words.members(),
        clocks: clock,
        params: &[],
    };
    is_shallow(definition, MAX_LEVELS)
        && is_allowed(definition, groups.len(), Position::Inner)
        && is_known(&here, definition)
}

/// Whether each definition is as it has to be, the first one being that of clock number `declared`.
fn are_definitions(parts: &Parts, declared: u32, definitions: &[Expr]) -> bool
    requires { declared + length definitions.now < 2 ^ 32 }
    ensures { IsTrue result ↔
        Each (IsDefinition (plain_system parts.now)) declared (map plain_expr definitions.now) }
{
    for (i, definition) in definitions.iter().enumerate() {
        if !is_definition(parts, declared + i as u32, definition) {
            return false;
        }
    }
    true
}

/// Whether a relation's bound is at least 1, if it has one.
fn is_relation(kind: RelationKind) -> bool
    ensures { IsTrue result ↔ IsRelation kind }
{
    match kind {
        RelationKind::PrecedesWithin(most) => 1 <= most,
        _ => true,
    }
}

/// Whether constraints stand between clocks below a number.
fn are_constraints(constraints: &[Constraint], clocks: u32) -> bool
    ensures { IsTrue result ↔ All (IsConstraint clocks) constraints.now }
{
    constraints.iter().all(|c| c.left < clocks && c.right < clocks && is_relation(c.kind))
}

/// Whether the parts are as they have to be, but for the levels of groups and the count of cells.
fn are_well_formed(parts: &Parts) -> bool
    ensures { IsTrue result ↔ IsWellFormed (plain_system parts.now) }
{
    if !are_counted(parts) {
        return false;
    }
    if !are_named(&parts.names, parts.written) {
        return false;
    }
    if !are_bodies(parts, parts.groups.members()) {
        return false;
    }
    if !are_definitions(parts, parts.declared, parts.definitions.members()) {
        return false;
    }
    are_constraints(parts.constraints.members(), parts.names.len())
}

impl Parts {
    /// Whether the parts make a system.
    pub fn accepted(&self, alloc: Global) -> Result<bool, Memory>
        ensures { IfOk result (λ accepted. IsTrue accepted ↔ IsAccepted (plain_system self.now)) }
    {
        if !are_well_formed(self) || !are_low(alloc, self.groups.members())? {
            return Ok(false);
        }
        Ok(self.cells(alloc)? <= MAX_CELLS)
    }
}
