//! Where uses of names stand.

use ccsl_ast::Kind;
use ccsl_spaces::{Callee, Space};
use std::alloc::Global;

/// Where a use stands: the space of its body and the number of its line, the space of relations and expressions, the
/// number of its definition (for the system the number of all definitions), and the levels that count for its calls, by
/// number of definition.
#[derive(Clone, Copy)]
pub(crate) struct Scene<'l, 's, 'a> {
    pub alloc: Global,
    pub locals: &'l Space<'a, Kind>,
    pub line: usize,
    pub calls: &'s Space<'a, Callee<'a>>,
    pub home: usize,
    pub levels: &'s [usize],
}

impl<'l, 's, 'a> Scene<'l, 's, 'a> {
    ghost use Rattle.std.specs.Prelude.{◌≡◌};
    ghost use Rattle.ccsl_faults.specs.Scenes.{seen_scene};

    /// The same at another line.
    pub(crate) fn at_line(&self, line: usize) -> Scene<'l, 's, 'a>
        ensures { seen_scene result ≡ record (seen_scene self.now) { line = line } }
    {
        Scene {
            alloc: self.alloc,
            locals: self.locals,
            line,
            calls: self.calls,
            home: self.home,
            levels: self.levels,
        }
    }
}

/// The surroundings of a definition, or of the system, in which the scenes of its lines lie.
#[derive(Clone, Copy)]
pub(crate) struct Home<'s, 'a> {
    pub alloc: Global,
    pub calls: &'s Space<'a, Callee<'a>>,
    pub number: usize,
    pub levels: &'s [usize],
}

impl<'s, 'a> Home<'s, 'a> {
    ghost use Rattle.std.specs.Prelude.{◌≡◌};
    ghost use Rattle.ccsl_faults.specs.Scenes.{seen_scene};
    ghost use Rattle.ccsl_faults.specs.Homes.{scene_of};

    /// The scene of a body at its first line.
    pub(crate) fn scene<'l>(&self, locals: &'l Space<'a, Kind>) -> Scene<'l, 's, 'a>
        ensures { seen_scene result ≡ scene_of self.now locals.now }
    {
        Scene {
            alloc: self.alloc,
            locals,
            line: 0,
            calls: self.calls,
            home: self.number,
            levels: self.levels,
        }
    }
}
