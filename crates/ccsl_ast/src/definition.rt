//! Definitions of relations and of groups of expressions.

use crate::line::RelationLine;
use crate::spot::Spot;
use crate::tree::Tree;
use ccsl_base::seq::Seq;

/// What a parameter stands for.
#[derive(Clone, Copy)]
pub enum Kind {
    Clock,
    Number,
    Word,
}

/// A parameter.
#[derive(Drop)]
pub struct Param {
    pub kind: Kind,
    pub name: Spot,
}

/// A defined expression of a group.
#[derive(Drop)]
pub struct Member {
    pub name: Spot,
    pub params: Seq<Param>,
    pub body: Tree,
}

/// A defined relation, whose body has at least one line, or a group of expressions that may call each other, at least
/// one.
#[derive(Drop)]
pub enum Definition {
    Relation {
        name: Spot,
        params: Seq<Param>,
        lines: Seq<RelationLine>,
    },
    Group(Seq<Member>),
}
