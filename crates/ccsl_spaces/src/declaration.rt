//! Declared names.

use ccsl_ast::Spot;

/// A declared name: what it stands for, and the number of the first line, or definition, that may use it.
#[derive(Clone, Copy)]
pub struct Declaration<'a, T> {
    pub name: &'a Spot,
    pub since: usize,
    pub what: T,
}
