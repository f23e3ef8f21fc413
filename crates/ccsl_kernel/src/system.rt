//! Accepted systems.

ghost use Rattle.std.specs.Prelude.{◌≡◌, ◌<◌, [], length, map, slice_get, Some, option_map, IfOk};
ghost use Rattle.ccsl_kernel.specs.Syntax.{item_count, body_of};
ghost use Rattle.ccsl_kernel.specs.Plain.{plain_expr, plain_body, plain_group, plain_system};
ghost use Rattle.ccsl_kernel.specs.Cells.{saturated, groups_cells, cells};
ghost use Rattle.ccsl_kernel.specs.Accepted.{IsAccepted};

use crate::accepted::cells::groups_cells;
use crate::constraint::Constraint;
use crate::expr::Expr;
use crate::group::{Body, Group};
use crate::parts::Parts;
use ccsl_base::{Memory, Names};
use ccsl_formula::Scope;
use ccsl_words::Word;
use std::alloc::Global;
use std::marker::Model;

/// An expanded specification that is accepted, with the count of its cells.
pub struct System {
    parts: Parts,
    count: u32,
}

// By hand and not derived: to the prover, an early return then drops one by a single call.
impl Drop for System {
    fn drop(self) {
        let System {
            parts: _parts,
            count: _,
        } = self;
    }
}

impl Model for System {
    ghost use Rattle.ccsl_kernel.specs.Syntax.{System as Plain};
    ghost use Rattle.std.specs.Prelude.{◌≡◌};
    ghost use Rattle.std.specs.Coded.{codes};
    ghost use Rattle.ccsl_kernel.specs.Coded.{coded_expression};

    ghost Value = { Plain };

    ghost coded = { Prim.hlevel (codes, coded_expression) };

    ghost use Rattle.ccsl_kernel.specs.Plain.{plain_system};
    ghost use Rattle.ccsl_kernel.specs.Cells.{cells};
    ghost use Rattle.ccsl_kernel.specs.Accepted.{IsAccepted};

    ghost view = { λ s. plain_system s.parts };

    ghost invariant = { λ s. IsAccepted (plain_system s.parts)
        × (s.count ≡ cells (plain_system s.parts)) };
}

impl System {
    /// The system of accepted parts. It takes no memory, and so it is handed the count of cells, as [`Parts::cells`]
    /// answers it.
    pub fn assemble(parts: Parts, count: u32) -> System
        requires accepted { IsAccepted (plain_system parts) }
        requires cells { count ≡ cells (plain_system parts) }
        ensures { result ≡ plain_system parts }
    {
        System { parts, count }
    }

    /// Each system is accepted. It does nothing: its contract is the law.
    pub fn is_accepted(&self)
        ensures { IsAccepted self.now }
    {
        let _ = &self.parts;
    }

    /// The names of the clocks, by number.
    pub fn names(&self) -> &Names
        ensures names { result.now ≡ self.now.names }
        ensures accepted { IsAccepted self.now }
    {
        &self.parts.names
    }

    /// The number of declared clocks, and that of all named ones.
    pub fn scope(&self) -> Scope
        ensures scope { result ≡
            record { declared = self.now.declared; named = length self.now.names } }
        ensures accepted { IsAccepted self.now }
    {
        Scope {
            declared: self.parts.declared,
            named: self.parts.names.len(),
        }
    }

    /// The number of clocks that the system declares or defines itself, without the hidden ones.
    pub fn written(&self) -> u32
        ensures written { result ≡ self.now.written }
        ensures accepted { IsAccepted self.now }
    {
        self.parts.written
    }

    /// The number of definitions, which are the clocks from `declared` on.
    pub fn definitions(&self) -> u32
        ensures { result ≡ length self.now.definitions }
    {
        self.parts.definitions.members().len() as u32
    }

    /// The number of constraints.
    pub fn constraints(&self) -> u32
        ensures { result ≡ length self.now.constraints }
    {
        self.parts.constraints.members().len() as u32
    }

    /// The number of definitions and constraints. The definitions are the first items.
    pub fn items(&self) -> u32
        ensures { result ≡ item_count self.now }
    {
        (self.parts.definitions.members().len() + self.parts.constraints.members().len()) as u32
    }

    /// The cells of the system's states. They are kept from the assembly on: a count that takes no memory would count
    /// each call of an expression anew, one within another, and take too long.
    pub fn cells(&self) -> u32
        ensures { result ≡ cells self.now }
    {
        self.count
    }

    /// The cells of a call to each group, in order, each at most 4,294,967,295.
    pub fn group_cells(&self, alloc: Global) -> Result<Vec<u32>, Memory>
        ensures cells { IfOk result (λ v.
            v.items ≡ map saturated (groups_cells [] self.now.groups)) }
        ensures accepted { IsAccepted self.now }
    {
        groups_cells(alloc, self.parts.groups.members())
    }

    /// The expression that defines clock number `declared + i`.
    pub fn definition(&self, i: u32) -> &Expr
        requires { i < length self.now.definitions }
        ensures definition { slice_get self.now.definitions i ≡ Some (plain_expr result.now) }
        ensures accepted { IsAccepted self.now }
    {
        &self.parts.definitions.members()[i as usize]
    }

    /// Constraint number `j`, from 0: item number `definitions + j`.
    pub fn constraint(&self, j: u32) -> &Constraint
        requires { j < length self.now.constraints }
        ensures constraint { slice_get self.now.constraints j ≡ Some result.now }
        ensures accepted { IsAccepted self.now }
    {
        &self.parts.constraints.members()[j as usize]
    }

    /// The groups of expressions that may be called, each of members that may call one another.
    pub fn groups(&self) -> &[Group]
        ensures groups { map plain_group result.now ≡ self.now.groups }
        ensures accepted { IsAccepted self.now }
    {
        self.parts.groups.members()
    }

    /// The body of a member of a group, and `None` where there is none.
    pub fn body(&self, group: u32, member: u32) -> Option<&Body>
        ensures body { option_map (λ b. plain_body b.now) result ≡
            body_of self.now.groups group member }
        ensures accepted { IsAccepted self.now }
    {
        let group = self.parts.groups.members().get(group as usize)?;
        group.members.members().get(member as usize)
    }

    /// The table of words.
    pub fn words(&self) -> &[Word]
        ensures { result.now ≡ self.now.words }
    {
        self.parts.words.members()
    }

    /// The word number `i` of the system's table.
    pub fn word(&self, i: u32) -> &Word
        requires { i < length self.now.words }
        ensures { slice_get self.now.words i ≡ Some result.now }
    {
        &self.parts.words.members()[i as usize]
    }
}
