//! The lines that an item comes from.

use crate::walk::{Block, Walk};
use ccsl_ast::{Definition, File, RelationLine, SystemLine};
use ccsl_base::Memory;
use std::alloc::Global;

/// Which text a line stands in.
#[derive(Clone, Copy)]
pub enum Home {
    Specification,
    Library,
}

/// A line, by the offset of its first name in its text.
#[derive(Clone, Copy)]
pub struct Origin {
    pub home: Home,
    pub at: usize,
}

/// An item, by how many of its kind come before it in the order of the expansion: a clock that the system's lines
/// define, one that a relation hides, or a constraint.
#[derive(Clone, Copy)]
pub enum Wanted {
    Written(u32),
    Hidden(u32),
    Constraint(u32),
}

fn add_blocks<'a>(
    blocks: &mut Vec<Block<'a>>,
    home: Home,
    definitions: &'a [Definition],
) -> Result<(), Memory> {
    for definition in definitions {
        blocks.push(Block { home, definition })?;
    }
    Ok(())
}

fn lines_of(file: &File) -> &[SystemLine] {
    file.lines.members()
}

fn system_line(line: &SystemLine) -> Option<&RelationLine> {
    match line {
        SystemLine::Clocks(_) => None,
        SystemLine::Line(line) => Some(line),
    }
}

/// The lines that an item of a file behind a library comes from: the system's line, then, where that calls a relation,
/// the line of the relation's body, and so on. None, where there is no such item.
pub fn origins(
    alloc: Global,
    library: &File,
    file: &File,
    wanted: Wanted,
) -> Result<Vec<Origin>, Memory> {
    let mut blocks = Vec::new(alloc);
    add_blocks(&mut blocks, Home::Library, library.definitions.members())?;
    add_blocks(&mut blocks, Home::Specification, file.definitions.members())?;
    let mut walk = Walk::new(alloc, wanted);
    for line in lines_of(file) {
        if let Some(line) = system_line(line)
            && walk.meets(blocks.as_slice(), line)?
        {
            return Ok(walk.trail);
        }
    }
    Ok(Vec::new(alloc))
}
