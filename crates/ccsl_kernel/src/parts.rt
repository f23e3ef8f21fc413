//! What a system is made from.

use crate::constraint::Constraint;
use crate::expr::Expr;
use crate::group::Group;
use ccsl_base::{Names, Seq};
use ccsl_words::Word;

/// The parts of a system. Its clocks are named by `names`: the declared ones, then those that the system defines,
/// `written` in all, then the hidden ones. There is a definition for each clock from `declared` on.
#[derive(Drop)]
pub struct Parts {
    pub names: Names,
    pub declared: u32,
    pub written: u32,
    pub groups: Seq<Group>,
    pub words: Seq<Word>,
    pub definitions: Seq<Expr>,
    pub constraints: Seq<Constraint>,
}
