//! The place of each name's first declaration.

ghost use Rattle.std.specs.Prelude.{◌≡◌, [], ◌∷◌, ◌++◌, is_none, IfOk, OnErr, if◌then◌else◌};
ghost use Rattle.ccsl_spaces.specs.Places.{place_of};

use ccsl_base::Memory;
use indexmap::IndexMap;
use std::alloc::Global;
use std::marker::Model;

/// Names, each with a place. A look-up takes constant time.
pub struct Index {
    alloc: Global,
    places: IndexMap<Vec<u8>, usize>,
}

impl Model for Index {
    ghost use Rattle.std.specs.Prelude.{List, ℕ, map};

    ghost Value = { List (List ℕ × ℕ) };

    ghost view = { λ i. map (λ e. (e.0.items, e.1)) i.places.entries };
}

// By hand and not derived: to the prover, an early return then drops one by a single call.
impl Drop for Index {
    fn drop(self) {
        let Index {
            alloc: _,
            places: _places,
        } = self;
    }
}

impl Index {
    /// An index without names.
    pub fn new(alloc: Global) -> Index
        ensures { result ≡ [] }
    {
        Index {
            alloc,
            places: IndexMap::new(alloc),
        }
    }

    /// The place of a name, or `None` where it is not there.
    pub fn find(&self, name: &[u8]) -> Option<usize>
        ensures { result ≡ place_of name.now self.now }
    {
        self.places.get(name).copied()
    }

    /// Adds a name with its place, and answers whether it was new. Where it is there already it keeps its place, and
    /// nothing changes; nor does anything on `Memory`.
    pub fn add(&mut self, name: &[u8], place: usize) -> Result<bool, Memory>
        ensures fresh { IfOk result (λ fresh. fresh ≡ is_none (place_of name.now self.old)) }
        ensures added { IfOk result (λ fresh. self.new ≡
            (if fresh then self.old ++ (name.now, place) ∷ [] else self.old)) }
        ensures memory { OnErr result (self.new ≡ self.old) }
    {
        if self.places.contains_key(name) {
            return Ok(false);
        }
        let name = Vec::from_slice(self.alloc, name)?;
        self.places.insert(name, place)?;
        Ok(true)
    }
}
