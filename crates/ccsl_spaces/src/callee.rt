//! Relations and expressions, as a call sees them.

use ccsl_ast::Param;

/// What a called name stands for: a relation, or a member of a group by the group's number and its own.
#[derive(Clone, Copy)]
pub enum Role {
    Relation,
    Member { group: usize, number: usize },
}

/// A relation or an expression: its role, the number of its definition, the library's first, and its parameters.
#[derive(Clone, Copy)]
pub struct Callee<'a> {
    pub role: Role,
    pub block: usize,
    pub params: &'a [Param],
}
