//! Tables of names.

ghost use Rattle.std.specs.Prelude.{◌≡◌, ◌<◌, ◌≤◌, ◌↔◌, [], ◌∷◌, ◌++◌, IsTrue, IsNone, IfOk, IfSome, OnErr, length, slice_get, Some, None};
ghost use Rattle.ccsl_base.specs.Names.{find_name, are_distinct};
ghost use Rattle.ccsl_base.specs.Added.{IsAdded};

use crate::Memory;
use indexmap::IndexSet;
use std::alloc::Global;
use std::hash::{BuildHasher, BuildHasherDefault, FoldHasher};
use std::marker::Model;

/// A list of distinct byte texts, each with its number in the order of addition. A look-up takes constant expected
/// time: where a stranger chooses the texts, by a hasher that he does not know.
pub struct Names<S: BuildHasher = BuildHasherDefault<FoldHasher>> {
    alloc: Global,
    texts: IndexSet<Vec<u8>, S>,
}

impl<S: BuildHasher> Model for Names<S> {
    ghost use Rattle.std.specs.Prelude.{List, ℕ, map, length, ◌<◌, ◌^◌, IsTrue};
    ghost use Rattle.ccsl_base.specs.Names.{are_distinct};

    ghost Value = { List (List ℕ) };

    ghost view = { λ n. map (λ t. t.items) n.texts.keys };

    ghost invariant = { λ n. (length n.texts.keys < 2 ^ 32)
        × IsTrue (are_distinct (map (λ t. t.items) n.texts.keys)) };
}

// By hand and not derived: to the prover, an early return then drops one by a single call.
impl<S: BuildHasher + Drop> Drop for Names<S> {
    fn drop(self) {
        let Names {
            alloc: _,
            texts: _texts,
        } = self;
    }
}

impl Names {
    /// A table without names, whose hasher is always the same.
    pub fn new(alloc: Global) -> Names
        ensures { result ≡ [] }
    {
        Names::with_hasher(alloc, BuildHasherDefault::new())
    }
}

impl<S: BuildHasher> Names<S> {
    /// A table without names.
    pub fn with_hasher(alloc: Global, hasher: S) -> Names<S>
        ensures { result ≡ [] }
    {
        Names {
            alloc,
            texts: IndexSet::with_hasher(alloc, hasher),
        }
    }

    /// Adds a name, and answers its number, or `None` where the name is there. On `None` and on `Memory` the table is
    /// as before.
    pub fn add(&mut self, name: &[u8]) -> Result<Option<u32>, Memory>
        requires room { length self.old < 4294967295 }
        ensures added { IfOk result (λ number. IsAdded self.old self.new name.now number) }
        ensures memory { OnErr result (self.new ≡ self.old) }
    {
        if self.texts.contains(name) {
            return Ok(None);
        }
        let number = self.texts.len();
        self.texts.insert(Vec::from_slice(self.alloc, name)?)?;
        Ok(Some(number as u32))
    }

    /// The number of a name, or `None` where it is not there.
    pub fn find(&self, name: &[u8]) -> Option<u32>
        ensures place { result ≡ find_name name.now self.now }
        ensures there { IfSome result (λ i. slice_get self.now i ≡ Some name.now) }
    {
        let place = self.texts.get_index_of(name)?;
        Some(place as u32)
    }

    /// The name of a number.
    pub fn get(&self, i: u32) -> &[u8]
        requires { i < length self.now }
        ensures name { slice_get self.now i ≡ Some result.now }
        ensures distinct { IsTrue (are_distinct self.now) }
    {
        self.texts.as_slice()[i as usize].as_slice()
    }

    /// The number of names, which is that of the next one.
    pub fn len(&self) -> u32
        ensures { result ≡ length self.now }
    {
        self.texts.len() as u32
    }

    /// Whether there is no name.
    pub fn is_empty(&self) -> bool
        ensures { IsTrue result ↔ (self.now ≡ []) }
    {
        self.texts.is_empty()
    }

    /// No name is there twice. It does nothing: its contract is the law.
    pub fn are_distinct(&self)
        ensures { IsTrue (are_distinct self.now) }
    {
        let _ = &self.texts;
    }
}
