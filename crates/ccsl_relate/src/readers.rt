//! Which items read a clock.

ghost use Rattle.std.specs.Prelude.{◌≡◌, ℕ, ◌+◌, ◌*◌, ◌<◌, ◌≤◌, ◌^◌, [], ◌||◌, ◌&&◌, nat_eq, length, map, slice_index_or, OnOk, IfOk};
ghost use Rattle.std.specs.List.{list_any};
ghost use Rattle.ccsl_base.specs.declared.limits.TheConstants.{MAX_CLOCKS};
ghost use Rattle.ccsl_base.specs.Clocks.{ticks_in};
ghost use Rattle.ccsl_relate.specs.Reading.{clocks_of, TellsFrom, Fit};

use crate::watched::Watched;
use ccsl_base::{ClockSet, MAX_CLOCKS, Memory};
use std::alloc::Global;
use std::marker::Model;

/// Fewer items are sooner looked at one by one.
const FEWEST: usize = 32;

/// The number of items of a group: a set of clocks has room for so many places.
pub(crate) const GROUP: usize = MAX_CLOCKS as usize;

/// The places of the items of a group that read a clock, at the clock's number. There is a set for each clock up to the
/// greatest one that is read.
#[derive(Drop)]
pub(crate) struct Group {
    places: Vec<ClockSet>,
}

impl Model for Group {
    ghost use Rattle.std.specs.Prelude.{List, ℕ};

    ghost Value = { List (List ℕ) };

    ghost view = { λ g. g.places.items };
}

/// The groups of some neighbouring items, in their order.
pub(crate) struct Readers {
    groups: Vec<Group>,
}

// By hand and not derived: to the prover, an early return then drops them by a single call.
impl Drop for Readers {
    fn drop(self) {
        let Readers { groups: _groups } = self;
    }
}

impl Model for Readers {
    ghost use Rattle.std.specs.Prelude.{List, ℕ};

    ghost Value = { List (List (List ℕ)) };

    ghost view = { λ r. r.groups.items };
}

// The item at a place reads a clock.
fn enter_clock(places: &mut Vec<ClockSet>, clock: u32, place: u32) -> Result<(), Memory>
    requires { place < MAX_CLOCKS }
    ensures { OnOk result ((c p : ℕ) → ticks_in p (slice_index_or places.new.items c []) ≡
        (ticks_in p (slice_index_or places.old.items c []) || (nat_eq p place && nat_eq c clock))) }
{
    while places.len() <= clock as usize {
        places.push(ClockSet::empty())?;
    }
    places[clock as usize].insert(place);
    Ok(())
}

// An item stands at a place.
fn enter(places: &mut Vec<ClockSet>, watched: &Watched, place: u32) -> Result<(), Memory>
    requires { place < MAX_CLOCKS }
    ensures { OnOk result ((c p : ℕ) → ticks_in p (slice_index_or places.new.items c []) ≡
        (ticks_in p (slice_index_or places.old.items c [])
        || (nat_eq p place && ticks_in c (clocks_of watched.now)))) }
{
    match watched {
        Watched::Nothing => Ok(()),
        Watched::Definition(clock) => enter_clock(places, *clock, place),
        Watched::Relation(related) => {
            enter_clock(places, related.left, place)?;
            enter_clock(places, related.right, place)
        }
    }
}

impl Group {
    // The group of the items from a place on.
    fn open(alloc: Global, kept: &[Watched], start: usize) -> Result<Group, Memory>
        requires { start ≤ length kept.now }
        ensures { IfOk result (λ group. TellsFrom start group (map clocks_of kept.now)) }
    {
        let mut places = Vec::new(alloc);
        let count = (kept.len() - start).min(GROUP);
        for place in 0..count {
            enter(&mut places, &kept[start + place], place as u32)?;
        }
        Ok(Group { places })
    }

    /// Makes the places of the items that read one of some clocks members of a set.
    #[inline(always)]
    pub(crate) fn gather(&self, clocks: &ClockSet, touched: &mut ClockSet)
        ensures { (p : ℕ) → ticks_in p touched.new ≡
            (ticks_in p touched.old || list_any (λ c.
            ticks_in p (slice_index_or self.now c [])) clocks.now) }
    {
        for clock in clocks.members() {
            if let Some(places) = self.places.get(clock as usize) {
                touched.insert_all(places);
            }
        }
    }
}

impl Readers {
    /// Those of some items, where they are enough to gain by it.
    pub(crate) fn open(alloc: Global, kept: &[Watched]) -> Result<Option<Readers>, Memory>
        requires { length kept.now < 2 ^ 32 }
        ensures { IfOk result (λ readers. Fit readers kept.now) }
    {
        if kept.len() < FEWEST {
            return Ok(None);
        }
        let mut groups = Vec::new(alloc);
        let mut start = 0;
        while start < kept.len() {
            groups.push(Group::open(alloc, kept, start)?)?;
            start += GROUP;
        }
        Ok(Some(Readers { groups }))
    }

    #[inline(always)]
    pub(crate) fn groups(&self) -> &[Group]
        ensures { result.now ≡ self.now }
    {
        self.groups.as_slice()
    }
}
