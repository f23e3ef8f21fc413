//! The states of some definitions of a system.

ghost use Rattle.std.specs.Prelude.{◌≡◌, ◌<◌, ◌+◌, ◌^◌, ℕ, List, [], ◌∷◌, ◌++◌, true, length, IfOk};
ghost use Rattle.ccsl_base.specs.Clocks.{ticks_in, are_below};
ghost use Rattle.ccsl_kernel.specs.Lives.{Step};
ghost use Rattle.ccsl_kernel.specs.Cells.{cells};
ghost use Rattle.ccsl_kernel.specs.Runs.{full_step};
ghost use Rattle.ccsl_state.specs.Reach.{Includes, IsClosed};
ghost use Rattle.ccsl_state.specs.Part.{part_of, PartStandsFor};

use crate::flat::{Flat, flats};
use crate::follow::{Passage, follow};
use crate::items::places;
use crate::layout::Layout;
use crate::reach::reached;
use crate::readers::Readers;
use crate::whole::open_row;
use ccsl_base::{ClockSet, Memory};
use ccsl_kernel::System;
use std::alloc::Global;
use std::marker::Model;

/// The states of the definitions that some clocks lead to, after some steps. The row has the regions of all
/// definitions, so that each has its place, but a step visits and rewrites only those followed ones that hear
/// something: a clock that they read ticks or dies, or they are not settled. It takes no memory. Constraints are not
/// counted.
#[derive(Drop)]
pub struct Part<'s> {
    system: &'s System,
    // the cells of a call to each group
    calls: Vec<u32>,
    // where each definition's region begins in the row
    places: Vec<u32>,
    // which are operators over clocks
    flats: Vec<Option<Flat>>,
    readers: Readers,
    row: Vec<u64>,
    // what has come of the last step
    passage: Passage,
}

impl<'s> Model for Part<'s> {
    ghost use Rattle.std.specs.Coded.{codes};
    ghost use Rattle.ccsl_kernel.specs.Coded.{coded_expression};
    ghost use Rattle.ccsl_state.specs.Part.{HeldPart};

    ghost Value = { HeldPart };

    ghost coded = { Prim.hlevel (codes, coded_expression) };

    ghost use Rattle.ccsl_state.specs.PartLaid.{held_part, IsPartLaid};

    ghost view = { held_part };

    ghost invariant = { IsPartLaid };
}

impl<'s> Part<'s> {
    /// The states before the first step, of the definitions that these clocks lead to. They take one row of cells,
    /// three small tables, and a set for each clock.
    pub fn open(alloc: Global, system: &'s System, clocks: &ClockSet) -> Result<Part<'s>, Memory>
        ensures system { IfOk result (λ p. p.system ≡ system.now) }
        ensures has { IfOk result (λ p. (x : ℕ) →
            ticks_in x clocks.now ≡ true → ticks_in x p.followed ≡ true) }
        ensures closed { IfOk result (λ p. IsClosed system.now p.followed) }
        ensures least { IfOk result (λ p. (set : List ℕ) → IsClosed system.now set →
            Includes system.now set clocks.now → Includes system.now set p.followed) }
        ensures stands { IfOk result (λ p. PartStandsFor p []) }
        ensures cells { IfOk result (λ p. length p.row ≡ cells system.now) }
    {
        let calls = system.group_cells(alloc)?;
        let mut row = Vec::from_elem(alloc, 0u64, system.cells() as usize)?;
        let lay = Layout {
            system,
            earlier: calls.as_slice(),
        };
        let places = places(alloc, &lay)?;
        let flats = flats(alloc, system)?;
        open_row(&lay, row.as_mut_slice());
        let readers = Readers::open(alloc, system, reached(system, clocks))?;
        let passage = Passage {
            gone: ClockSet::empty(),
            waiting: ClockSet::empty(),
            unsettled: readers.numbers(system),
        };
        Ok(Part {
            system,
            calls,
            places,
            flats,
            readers,
            row,
            passage,
        })
    }

    /// The clocks whose definitions are followed: those that it was opened with, and all that their definitions lead
    /// to.
    pub fn followed(&self) -> &ClockSet
        ensures followed { result.now ≡ self.now.followed }
        ensures closed { IsClosed self.now.system self.now.followed }
    {
        &self.readers.followed
    }

    /// Goes on by the full step that the declared clocks of a set give. Then the set has what of that step is declared
    /// or followed.
    #[inline(always)]
    pub fn go_on(&mut self, step: &mut ClockSet)
        requires { are_below self.old.system.declared step.old ≡ true }
        ensures system { self.new.system ≡ self.old.system }
        ensures followed { self.new.followed ≡ self.old.followed }
        ensures cells { length self.new.row ≡ length self.old.row }
        ensures step { (T : List Step) → PartStandsFor self.old T →
            step.new ≡ part_of self.old (full_step self.old.system T step.old) }
        ensures stands { (T : List Step) → PartStandsFor self.old T → length T + 1 < 2 ^ 64 →
            PartStandsFor self.new (T ++ full_step self.old.system T step.old ∷ []) }
    {
        let lay = Layout {
            system: self.system,
            earlier: self.calls.as_slice(),
        };
        let passage = &mut self.passage;
        self.readers
            .hear(step, &passage.unsettled, &mut passage.waiting);
        let places = self.places.as_slice();
        follow(
            &lay,
            &self.readers,
            places,
            self.flats.as_slice(),
            self.row.as_mut_slice(),
            step,
            passage,
        );
    }
}
