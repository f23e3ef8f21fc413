//! What the names of a body stand for.

ghost use Rattle.std.specs.Prelude.{◌≡◌, [], ◌∷◌, ◌++◌, IfOk};
ghost use Rattle.std.specs.Option.{option_map};
ghost use Rattle.ccsl_rules.specs.Settings.{atom_of};
ghost use Rattle.ccsl_expand.specs.Seen.{seen_atom, atom_or_zero};

use crate::atom::Atom;
use ccsl_base::{Memory, Text};
use ccsl_spaces::Index;
use std::alloc::Global;
use std::marker::Model;

/// What the names of a body stand for, in the order of their declarations; of two entries for a name the first counts.
/// A look-up takes constant time.
pub struct Setting {
    alloc: Global,
    names: Vec<Text>,
    atoms: Vec<Atom>,
    first: Index,
}

impl Model for Setting {
    ghost use Rattle.std.specs.Prelude.{map, zip};
    ghost use Rattle.ccsl_rules.specs.Settings.{Setting as Pairs};
    ghost use Rattle.ccsl_expand.specs.Seen.{seen_atom};
    ghost use Rattle.ccsl_expand.specs.Bounds.{HasEntries};

    ghost Value = { Pairs };

    ghost view = { λ s. zip s.names.items (map seen_atom s.atoms.items) };

    ghost invariant = { λ s. HasEntries s.first s.names.items s.atoms.items };
}

// By hand and not derived: to the prover, an early return then drops one by a single call.
impl Drop for Setting {
    fn drop(self) {
        let Setting {
            alloc: _,
            names: _names,
            atoms: _atoms,
            first: _first,
        } = self;
    }
}

impl Setting {
    /// A setting without names.
    pub fn new(alloc: Global) -> Setting
        ensures { result ≡ [] }
    {
        Setting {
            alloc,
            names: Vec::new(alloc),
            atoms: Vec::new(alloc),
            first: Index::new(alloc),
        }
    }

    /// The setting with one more entry.
    pub fn with(self, name: &[u8], atom: Atom) -> Result<Setting, Memory>
        ensures { IfOk result (λ s. s ≡ self ++ (name.now, seen_atom atom) ∷ []) }
    {
        // Taken apart, since it is no setting while its lists differ in length.
        let Setting {
            alloc,
            mut names,
            mut atoms,
            mut first,
        } = self;
        let text = Text::new(Vec::from_slice(alloc, name)?);
        first.add(name, names.len())?;
        names.push(text)?;
        atoms.push(atom)?;
        Ok(Setting {
            alloc,
            names,
            atoms,
            first,
        })
    }

    /// What a name stands for.
    pub fn find(&self, name: &[u8]) -> Option<&Atom>
        ensures { atom_or_zero (option_map (λ a. seen_atom a.now) result)
            ≡ atom_of self.now name.now }
    {
        match self.first.find(name) {
            None => None,
            Some(place) => Some(&self.atoms[place]),
        }
    }
}
