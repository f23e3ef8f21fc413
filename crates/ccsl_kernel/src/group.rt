//! Groups of expressions that may call one another.

use crate::expr::Expr;
use ccsl_base::Seq;

/// What a parameter stands for.
#[derive(Clone, Copy)]
pub enum ParamKind {
    Clock,
    Number,
    Word,
}

/// A member of a group: its parameters and its expression, which names parameters and no clock.
#[derive(Drop)]
pub struct Body {
    pub params: Seq<ParamKind>,
    pub root: Expr,
}

/// Expressions that are defined together.
#[derive(Drop)]
pub struct Group {
    pub members: Seq<Body>,
}
