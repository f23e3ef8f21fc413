//! What the lines of bodies become.

ghost use Rattle.std.specs.Prelude.{◌≡◌, ◌+◌, ◌∷◌, ◌++◌, [], length, map, flat_map, IfOk, OnOk};
ghost use Rattle.ccsl_ast.specs.Plain.{plain};
ghost use Rattle.ccsl_rules.specs.Texts.{argument_texts, texts, word_texts};
ghost use Rattle.ccsl_rules.specs.Unfolded.{Defines, Binds, inside};
ghost use Rattle.ccsl_expand.specs.Items.{seen_item};

use crate::frame::Frame;
use crate::path::inside;
use crate::setting::Setting;
use crate::term::take_text;
use ccsl_ast::{Argument, Relation, Spot, Tree, WordTerm};
use ccsl_base::{Memory, Text};
use std::alloc::Global;
use std::rc::Rc;

/// A line of the system, or of the body of a called relation, with the path of the call and with what its names stand
/// for.
#[derive(Drop)]
pub enum Item<'a> {
    /// A clock by its whole name, and its definition, whose first text has the number `start`.
    Defines {
        path: Text,
        name: Text,
        setting: Rc<Setting>,
        start: u32,
        tree: &'a Tree,
    },
    /// A relation between two clocks.
    Binds {
        path: Text,
        setting: Rc<Setting>,
        left: &'a Spot,
        relation: Relation,
        right: &'a Spot,
    },
}

fn copy(alloc: Global, text: &Text) -> Result<Text, Memory>
    ensures { IfOk result (λ t. t ≡ text.now) }
{
    Ok(Text::new(Vec::from_slice(alloc, text.bytes())?))
}

/// Adds a clock that a body defines.
pub fn push_definition<'a>(
    alloc: Global,
    out: &mut Vec<Item<'a>>,
    frame: &Frame,
    start: u32,
    name: &Spot,
    tree: &'a Tree,
) -> Result<(), Memory>
    ensures { OnOk result (map seen_item out.new.items ≡ map seen_item out.old.items ++
        Defines frame.now.path (inside frame.now.path name.now.name) frame.now.setting.value
        start (plain tree.now) ∷ []) }
{
    let whole = inside(alloc, frame.path.bytes(), name.name.bytes())?;
    let item = Item::Defines {
        path: copy(alloc, &frame.path)?,
        name: Text::new(whole),
        setting: frame.setting.clone()?,
        start,
        tree,
    };
    out.push(item)?;
    Ok(())
}

/// Adds a constraint of a body.
pub fn push_constraint<'a>(
    alloc: Global,
    out: &mut Vec<Item<'a>>,
    frame: &Frame,
    left: &'a Spot,
    relation: Relation,
    right: &'a Spot,
) -> Result<(), Memory>
    ensures { OnOk result (map seen_item out.new.items ≡ map seen_item out.old.items ++
        Binds frame.now.path frame.now.setting.value left.now.name relation right.now.name ∷ []) }
{
    let item = Item::Binds {
        path: copy(alloc, &frame.path)?,
        setting: frame.setting.clone()?,
        left,
        relation,
        right,
    };
    out.push(item)?;
    Ok(())
}

/// Passes over the texts of arguments.
pub fn pass_arguments(next: &mut u32, args: &[Argument]) -> Result<(), Memory>
    ensures { OnOk result (next.new ≡ next.old + length (flat_map argument_texts args.now)) }
{
    for argument in args {
        if let Argument::Text(_, _) = argument {
            take_text(next)?;
        }
    }
    Ok(())
}

/// Passes over the texts of an expression.
pub fn pass_tree(next: &mut u32, tree: &Tree) -> Result<(), Memory>
    ensures { OnOk result (next.new ≡ next.old + length (texts (plain tree.now))) }
{
    match tree {
        Tree::Name(_) | Tree::Never => Ok(()),
        Tree::Call(_, args) => pass_arguments(next, args.members()),
        Tree::Binary(_, a, d) | Tree::Delayed(a, _, _, d) | Tree::If(_, a, d) => {
            pass_tree(next, a)?;
            pass_tree(next, d)
        }
        Tree::Delay(a, _) | Tree::Await(a, _) => pass_tree(next, a),
        Tree::Filter(a, word) => {
            pass_tree(next, a)?;
            if let WordTerm::Text(_, _) = word {
                take_text(next)?;
            }
            Ok(())
        }
    }
}
