//! Walking over lines in the order in which they are expanded.

ghost use Rattle.std.specs.Prelude.{◌≡◌, ◌==◌, ◌<◌, ◌-◌, ◌∷◌, ◌++◌, List, true, false, IfOk, IfSome};
ghost use Rattle.ccsl_ast.specs.declared.line.RelationLine.{RelationLine};
ghost use Rattle.ccsl_origin.specs.declared.origin.Origin.{Origin};
ghost use Rattle.ccsl_origin.specs.declared.origin.Home.TheVariants.{Specification};
ghost use Rattle.ccsl_origin.specs.Offsets.{offset_of, origin_of};
ghost use Rattle.ccsl_origin.specs.Passing.{is_definition, past_definition, is_constraint, past_constraint};

use crate::origin::{Home, Origin, Wanted};
use ccsl_ast::{Definition, RelationLine, Spot};
use ccsl_base::Memory;
use std::alloc::Global;

/// A definition of the library or of the specification.
#[derive(Clone, Copy)]
pub(crate) struct Block<'a> {
    pub(crate) home: Home,
    pub(crate) definition: &'a Definition,
}

// The lines of a relation, and the number of its definition.
#[derive(Clone, Copy)]
struct Body<'a> {
    number: usize,
    home: Home,
    lines: &'a [RelationLine],
}

/// What is left to pass before the wanted item comes, and the lines on the way to it.
#[derive(Drop)]
pub(crate) struct Walk {
    pub(crate) trail: Vec<Origin>,
    wanted: Wanted,
}

fn lines_named<'a>(block: &Block<'a>, called: &[u8]) -> Option<&'a [RelationLine]> {
    match block.definition {
        Definition::Group(_) => None,
        Definition::Relation { name, lines, .. } => {
            if name.name.bytes() == called {
                Some(lines.members())
            } else {
                None
            }
        }
    }
}

// The relation of a name among the definitions before number `limit`.
fn body_of<'a>(blocks: &[Block<'a>], limit: usize, called: &Spot) -> Option<Body<'a>>
    ensures { IfSome result (λ body. body.number < limit) }
{
    for number in 0..limit.min(blocks.len()) {
        let block = &blocks[number];
        if let Some(lines) = lines_named(block, called.name.bytes()) {
            return Some(Body {
                number,
                home: block.home,
                lines,
            });
        }
    }
    None
}

// The offset of a line's first name.
fn offset_of(line: &RelationLine) -> usize
    ensures { result ≡ offset_of line.now }
{
    match line {
        RelationLine::Define(name, _) => name.at,
        RelationLine::Constraint(left, _, _) => left.at,
        RelationLine::Call(name, _) => name.at,
    }
}

// One fewer is left to pass, or none is.
fn passed(left: &mut u32) -> bool
    ensures last { result ≡ (left.old == 0) }
    ensures fewer { left.new ≡ left.old - 1 }
{
    if *left == 0 {
        return true;
    }
    *left -= 1;
    false
}

impl Walk {
    pub(crate) fn new(alloc: Global, wanted: Wanted) -> Walk {
        Walk {
            trail: Vec::new(alloc),
            wanted,
        }
    }

    // Whether a definition in a body, or in the system, is the wanted item. If not, it is passed.
    fn is_definition(&mut self, is_hidden: bool) -> bool
        ensures is { result ≡ is_definition is_hidden self.old.wanted }
        ensures left { self.new.wanted ≡ past_definition is_hidden self.old.wanted }
        ensures trail { self.new.trail.items ≡ self.old.trail.items }
    {
        match &mut self.wanted {
            Wanted::Written(left) if !is_hidden => passed(left),
            Wanted::Hidden(left) if is_hidden => passed(left),
            _ => false,
        }
    }

    // Whether a constraint is the wanted item. If not, it is passed.
    fn is_constraint(&mut self) -> bool
        ensures is { result ≡ is_constraint self.old.wanted }
        ensures left { self.new.wanted ≡ past_constraint self.old.wanted }
        ensures trail { self.new.trail.items ≡ self.old.trail.items }
    {
        match &mut self.wanted {
            Wanted::Constraint(left) => passed(left),
            _ => false,
        }
    }

    // Whether the wanted item comes from a line of a body, or of the system, which calls definitions before number
    // `limit`.
    #[cycle(walking)]
    fn is_from(
        &mut self,
        blocks: &[Block<'_>],
        limit: usize,
        is_hidden: bool,
        home: Home,
        line: &RelationLine,
    ) -> Result<bool, Memory>
        ensures found { IfOk result (λ found. found ≡ true →
            (more : List Origin)
            × (self.new.trail.items ≡ self.old.trail.items ++ origin_of home line.now ∷ more)) }
        ensures passed { IfOk result (λ found. found ≡ false →
            self.new.trail.items ≡ self.old.trail.items) }
    {
        self.trail.push(Origin {
            home,
            at: offset_of(line),
        })?;
        let is_found = match line {
            RelationLine::Define(_, _) => self.is_definition(is_hidden),
            RelationLine::Constraint(_, _, _) => self.is_constraint(),
            RelationLine::Call(called, _) => match body_of(blocks, limit, called) {
                None => false,
                Some(body) => self.is_in(blocks, body.number, body.home, body.lines)?,
            },
        };
        if !is_found {
            self.trail.pop();
        }
        Ok(is_found)
    }

    // Whether the wanted item comes from one of these lines of a body.
    #[cycle(walking)]
    fn is_in(
        &mut self,
        blocks: &[Block<'_>],
        limit: usize,
        home: Home,
        lines: &[RelationLine],
    ) -> Result<bool, Memory>
        ensures found { IfOk result (λ found. found ≡ true →
            (line : RelationLine) × (more : List Origin) ×
            (self.new.trail.items ≡ self.old.trail.items ++ origin_of home line ∷ more)) }
        ensures passed { IfOk result (λ found. found ≡ false →
            self.new.trail.items ≡ self.old.trail.items) }
    {
        for line in lines {
            if self.is_from(blocks, limit, true, home, line)? {
                return Ok(true);
            }
        }
        Ok(false)
    }

    /// Whether the wanted item comes from a line of the system. Then the trail leads to it, and else it is as it was.
    pub(crate) fn meets(
        &mut self,
        blocks: &[Block<'_>],
        line: &RelationLine,
    ) -> Result<bool, Memory>
        ensures found { IfOk result (λ found. found ≡ true → (more : List Origin) ×
            (self.new.trail.items ≡ self.old.trail.items
            ++ origin_of Specification line.now ∷ more)) }
        ensures passed { IfOk result (λ found. found ≡ false →
            self.new.trail.items ≡ self.old.trail.items) }
    {
        self.is_from(blocks, blocks.len(), false, Home::Specification, line)
    }
}
