//! Name spaces.

ghost use Rattle.std.specs.Prelude.{◌≡◌, [], ◌∷◌, ◌++◌, ◌<◌, is_none, IfOk, OnOk, OnErr, length, map, take};
ghost use Rattle.std.specs.Option.{option_map};
ghost use Rattle.ccsl_rules.specs.Spaces.{look};
ghost use Rattle.ccsl_base.specs.Names.{is_among};
ghost use Rattle.ccsl_spaces.specs.Knowns.{known, declared_as, names, name_at};

use crate::declaration::Declaration;
use crate::index::Index;
use ccsl_ast::Spot;
use ccsl_base::Memory;
use std::alloc::Global;
use std::marker::Model;

/// The declarations of a name space in their order, and for each name the first of them. A look-up takes constant time.
#[derive(Drop)]
pub struct Space<'a, T> {
    declared: Vec<Declaration<'a, T>>,
    first: Index,
}

impl<'a, T> Model for Space<'a, T> {
    ghost use Rattle.std.specs.Prelude.{List, map};
    ghost use Rattle.ccsl_rules.specs.Spaces.{Known};

    ghost Value = { List (Known T) };

    ghost use Rattle.ccsl_spaces.specs.Knowns.{known};
    ghost use Rattle.ccsl_spaces.specs.Places.{HasFirsts};

    ghost view = { λ s. map known s.declared.items };

    ghost invariant = { λ s. HasFirsts s.first (map (λ d. d.name.now.name) s.declared.items) };
}

impl<'a, T: Copy> Space<'a, T> {
    /// A space without declarations.
    pub fn new(alloc: Global) -> Space<'a, T>
        ensures { result ≡ [] }
    {
        Space {
            declared: Vec::new(alloc),
            first: Index::new(alloc),
        }
    }

    /// Adds a declaration, and answers whether its name was new. What other names stand for does not change, nor what
    /// this one stands for where it was declared before; on `Memory` nothing changes.
    pub fn add(&mut self, name: &'a Spot, since: usize, what: T) -> Result<bool, Memory>
        ensures fresh { IfOk result (λ fresh. fresh ≡ is_none (look name.now.name self.old)) }
        ensures added { OnOk result (self.new ≡ self.old ++ declared_as name.now since what ∷ []) }
        ensures memory { OnErr result (self.new ≡ self.old) }
    {
        self.declared.reserve(1)?;
        let fresh = self.first.add(name.name.bytes(), self.declared.len())?;
        self.declared
            .push(Declaration { name, since, what })
            .unwrap();
        Ok(fresh)
    }

    /// The first declaration of a name, or `None` where it has none.
    pub fn find(&self, name: &[u8]) -> Option<&Declaration<'a, T>>
        ensures { option_map (λ d. known d.now) result ≡ look name.now self.now }
    {
        let place = self.first.find(name)?;
        Some(&self.declared[place])
    }

    /// The declarations, in their order.
    pub fn declared(&self) -> &[Declaration<'a, T>]
        ensures { map known result.now ≡ self.now }
    {
        self.declared.as_slice()
    }

    /// Whether the name of the declaration at a place was declared before it.
    pub fn is_repeated(&self, place: usize) -> bool
        requires { place < length self.now }
        ensures { result ≡ is_among (name_at self.now place) (take place (names self.now)) }
    {
        match self.first.find(self.declared[place].name.name.bytes()) {
            None => false,
            Some(first) => first < place,
        }
    }
}
