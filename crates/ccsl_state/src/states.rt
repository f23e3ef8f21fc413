//! The states of a system.

ghost use Rattle.std.specs.Prelude.{◌≡◌, ◌<◌, ◌+◌, ◌^◌, List, [], ◌∷◌, ◌++◌, true, length, Some, IfOk};
ghost use Rattle.ccsl_base.specs.Clocks.{are_below};
ghost use Rattle.ccsl_formula.specs.Variables.{ReadsBelow};
ghost use Rattle.ccsl_formula.specs.Plain.{plain};
ghost use Rattle.ccsl_kernel.specs.Syntax.{Expression, item_count, definition_of};
ghost use Rattle.ccsl_kernel.specs.Lives.{Step};
ghost use Rattle.ccsl_kernel.specs.Deaths.{dead_at};
ghost use Rattle.ccsl_kernel.specs.Items.{item_formula};
ghost use Rattle.ccsl_kernel.specs.Cells.{cells};
ghost use Rattle.ccsl_kernel.specs.Runs.{ObeysDefinitions, full_step};
ghost use Rattle.ccsl_state.specs.Held.{formula_in, derived_by, is_dead, Advances, StandsFor};
ghost use Rattle.ccsl_state.specs.Laws.{StaySilent};

use crate::items::{item_formula, places};
use crate::layout::Layout;
use crate::whole::{advance_row, derive_row, open_row};
use ccsl_base::{ClockSet, Memory};
use ccsl_formula::Formula;
use ccsl_kernel::System;
use std::alloc::Global;
use std::marker::Model;

/// The states of a system's definitions and constraints after some steps, in a row of just so many numbers as the
/// system has cells. The row is taken when the states are opened, and rewritten in place: a step takes no memory.
#[derive(Drop)]
pub struct States<'s> {
    system: &'s System,
    // the cells of a call to each group
    calls: Vec<u32>,
    // where each definition's region begins in the row
    places: Vec<u32>,
    row: Vec<u64>,
    // the dead clocks
    gone: ClockSet,
}

impl<'s> Model for States<'s> {
    ghost use Rattle.std.specs.Coded.{codes};
    ghost use Rattle.ccsl_kernel.specs.Coded.{coded_expression};
    ghost use Rattle.ccsl_state.specs.Held.{Held};

    ghost Value = { Held };

    ghost coded = { Prim.hlevel (codes, coded_expression) };

    ghost use Rattle.ccsl_state.specs.Laid.{held, IsLaid};

    ghost view = { held };

    ghost invariant = { IsLaid };
}

impl<'s> States<'s> {
    /// The states before the first step. They take one row of cells, and two small tables.
    pub fn open(alloc: Global, system: &'s System) -> Result<States<'s>, Memory>
        ensures system { IfOk result (λ s. s.system ≡ system.now) }
        ensures stands { IfOk result (λ s. StandsFor s []) }
        ensures cells { IfOk result (λ s. length s.row ≡ cells system.now) }
    {
        let calls = system.group_cells(alloc)?;
        let mut row = Vec::from_elem(alloc, 0u64, system.cells() as usize)?;
        let lay = Layout {
            system,
            earlier: calls.as_slice(),
        };
        let places = places(alloc, &lay)?;
        let gone = open_row(&lay, row.as_mut_slice());
        Ok(States {
            system,
            calls,
            places,
            row,
            gone,
        })
    }

    /// The formula of an item at the next step, with nothing folded. The definitions are the first items.
    pub fn formula_of(&self, alloc: Global, item: u32) -> Result<Formula, Memory>
        requires { item < item_count self.now.system }
        ensures row { IfOk result (λ f. plain f ≡ formula_in self.now item) }
        ensures formula { IfOk result (λ f. (T : List Step) → StandsFor self.now T →
            plain f ≡ item_formula self.now.system T (length T) item) }
        ensures below { IfOk result (λ f. ReadsBelow (length self.now.system.names) (plain f)) }
    {
        let lay = Layout {
            system: self.system,
            earlier: self.calls.as_slice(),
        };
        let places = self.places.as_slice();
        Ok(item_formula(alloc, &lay, places, item, self.row.as_slice())?)
    }

    /// The full step that a set of declared clocks gives: the set with the defined clocks whose formulas hold.
    #[tactic(auto, using(crate::proofs::StandLaws::stands_derived))]
    pub fn derive(&self, declared: &ClockSet) -> ClockSet
        ensures row { result ≡ derived_by self.now declared.now }
        ensures step { (T : List Step) → StandsFor self.now T →
            result ≡ full_step self.now.system T declared.now }
    {
        let lay = Layout {
            system: self.system,
            earlier: self.calls.as_slice(),
        };
        derive_row(&lay, self.row.as_slice(), declared)
    }

    /// Whether a definition is dead: it will not tick again.
    #[tactic(auto, using(std::proofs::lemmas::Grind::common_steps, crate::proofs::StandLaws::stands_dead))]
    pub fn dead(&self, definition: u32) -> bool
        requires { definition < length self.now.system.definitions }
        ensures row { result ≡ is_dead self.now definition }
        ensures dead { (T : List Step) (e : Expression) → StandsFor self.now T →
            definition_of self.now.system (self.now.system.declared + definition) ≡ Some e →
            result ≡ dead_at self.now.system T
            (self.now.system.declared + definition) e [] 0 (length T) }
    {
        self.gone.has(self.system.scope().declared + definition)
    }

    /// Goes on by the full step that a set of declared clocks gives, and answers that step.
    pub fn advance(&mut self, declared: &ClockSet) -> ClockSet
        ensures system { self.new.system ≡ self.old.system }
        ensures step { result ≡ derived_by self.old declared.now }
        ensures row { Advances self.old (derived_by self.old declared.now) self.new }
        ensures stands { (T : List Step) → StandsFor self.old T → length T + 1 < 2 ^ 64 →
            StandsFor self.new (T ++ full_step self.old.system T declared.now ∷ []) }
        ensures cells { length self.new.row ≡ length self.old.row }
        ensures silent { (T : List Step) → StandsFor self.old T → length T + 1 < 2 ^ 64 →
            ObeysDefinitions self.old.system T →
            are_below self.old.system.declared declared.now ≡ true →
            StaySilent self.old result self.new }
    {
        let lay = Layout {
            system: self.system,
            earlier: self.calls.as_slice(),
        };
        let passed = advance_row(&lay, self.row.as_mut_slice(), declared);
        self.gone = passed.gone;
        passed.step
    }

    /// The same states once more.
    pub fn copy(&self, alloc: Global) -> Result<States<'s>, Memory>
        ensures { IfOk result (λ s. s ≡ self.now) }
    {
        Ok(States {
            system: self.system,
            calls: Vec::from_slice(alloc, self.calls.as_slice())?,
            places: Vec::from_slice(alloc, self.places.as_slice())?,
            row: Vec::from_slice(alloc, self.row.as_slice())?,
            gone: self.gone.copy(),
        })
    }
}
