//! Calls of relations replaced by bodies.

ghost use Rattle.std.specs.Prelude.{◌≡◌, ◌≤◌, ◌<◌, ◌+◌, ◌++◌, [], ℕ, List, map, flat_map, length, IfOk, IfSome, OnOk};
ghost use Rattle.ccsl_ast.specs.Trees.{SLineOf};
ghost use Rattle.ccsl_ast.specs.Plain.{plain_line, plain_sline};
ghost use Rattle.ccsl_rules.specs.Texts.{argument_texts, line_texts, entry_texts};
ghost use Rattle.ccsl_rules.specs.Settings.{Atom, argument_atoms};
ghost use Rattle.ccsl_rules.specs.Unfolded.{call_path, arguments, own_clocks, unfolding_of};
ghost use Rattle.ccsl_rules.specs.Unfolded.{unfold_line, unfold_entry, unfold_body};
ghost use Rattle.ccsl_spaces.specs.Callees.{seen_call};
ghost use Rattle.ccsl_expand.specs.Items.{seen_item, earlier, items_within};

use crate::callee::callee;
use crate::frame::{Frame, bind_arguments, bind_body};
use crate::item::{Item, pass_arguments, pass_tree, push_constraint, push_definition};
use crate::path::call_path;
use crate::texts::Block;
use ccsl_ast::{Argument, Definition, Param, RelationLine, Spot, SystemLine};
use ccsl_base::{Memory, Text};
use ccsl_spaces::{Callee, Space};
use ccsl_words::Word;
use std::alloc::Global;
use std::rc::Rc;

/// What lines are unfolded from: the definitions of the library and the file, the words, and what is called.
#[derive(Clone, Copy)]
pub struct Sources<'b, 'a> {
    pub blocks: &'b [Block<'a>],
    pub words: &'b [Word],
    pub calls: &'b Space<'a, Callee<'a>>,
}

/// A relation, the number of its definition, and that of its first text.
#[derive(Clone, Copy)]
struct Body<'a> {
    home: usize,
    start: u32,
    params: &'a [Param],
    lines: &'a [RelationLine],
}

// The relation of a name, if it is one of the definitions before number `home`.
fn body_of<'a>(sources: &Sources<'_, 'a>, home: usize, name: &Spot) -> Option<Body<'a>>
    requires { home ≤ length sources.now.blocks.now }
    ensures items { (path : List ℕ) (args : List Atom) → items_within sources.now result path args ≡
        unfolding_of (map seen_call sources.now.calls.now) (earlier sources.now home)
        name.now.name path args }
    ensures lower { IfSome result (λ body. body.home < home) }
{
    let found = callee(sources.calls, name)?;
    if found.block >= home {
        return None;
    }
    let block = &sources.blocks[found.block];
    match block.definition {
        Definition::Group(_) => None,
        Definition::Relation {
            name: _,
            params,
            lines,
        } => Some(Body {
            home: found.block,
            start: block.start,
            params: params.members(),
            lines: lines.members(),
        }),
    }
}

// The frame of a called relation's body. `next` goes over the texts of the arguments.
fn inner_frame(
    alloc: Global,
    sources: &Sources<'_, '_>,
    outer: &Frame,
    next: &mut u32,
    i: usize,
    name: &Spot,
    args: &[Argument],
    body: &Body<'_>,
) -> Result<Frame, Memory>
    ensures path { IfOk result (λ f. f.path ≡ call_path outer.now.path name.now.name i) }
    ensures setting { IfOk result (λ f. f.setting.value ≡
        arguments body.now.params.now
        (argument_atoms sources.now.words.now outer.now.setting.value next.old args.now)
        ++ own_clocks f.path (map SLineOf (map plain_line body.now.lines.now))) }
    ensures next { OnOk result (next.new ≡ next.old + length (flat_map argument_texts args.now)) }
{
    let path = Text::new(call_path(alloc, outer.path.bytes(), name.name.bytes(), i)?);
    let setting = bind_arguments(
        alloc,
        sources.words,
        &outer.setting,
        next,
        body.params,
        args,
    )?;
    let setting = bind_body(alloc, setting, path.bytes(), body.lines)?;
    let setting = Rc::new(alloc, setting)?;
    Ok(Frame { path, setting })
}

/// Adds what the line at place `i` of a body becomes; `home` is the number of the body's definition, `next` the number
/// of the line's first text before, and of the text behind the line after.
#[cycle(unfolding)]
fn unfold_line<'a>(
    alloc: Global,
    sources: &Sources<'_, 'a>,
    out: &mut Vec<Item<'a>>,
    home: usize,
    frame: &Frame,
    next: &mut u32,
    i: usize,
    line: &'a RelationLine,
) -> Result<(), Memory>
    requires { home ≤ length sources.now.blocks.now }
    ensures items { OnOk result (map seen_item out.new.items ≡ map seen_item out.old.items ++
        unfold_line sources.now.words.now (map seen_call sources.now.calls.now)
        (earlier sources.now home)
        frame.now.path frame.now.setting.value next.old i (plain_line line.now)) }
    ensures next { OnOk result (next.new ≡ next.old + length (line_texts (plain_line line.now))) }
{
    match line {
        RelationLine::Define(name, tree) => {
            push_definition(alloc, out, frame, *next, name, tree)?;
            pass_tree(next, tree)
        }
        RelationLine::Constraint(left, relation, right) => {
            push_constraint(alloc, out, frame, left, *relation, right)
        }
        RelationLine::Call(name, args) => match body_of(sources, home, name) {
            None => pass_arguments(next, args.members()),
            Some(body) => {
                let inner = inner_frame(
                    alloc,
                    sources,
                    frame,
                    next,
                    i,
                    name,
                    args.members(),
                    &body,
                )?;
                unfold_lines(
                    alloc, sources, out, body.home, &inner, body.start, body.lines,
                )
            }
        },
    }
}

/// Adds what the lines of a relation's body become; `home` is the number of its definition, `start` that of its first
/// text.
#[cycle(unfolding)]
fn unfold_lines<'a>(
    alloc: Global,
    sources: &Sources<'_, 'a>,
    out: &mut Vec<Item<'a>>,
    home: usize,
    frame: &Frame,
    start: u32,
    lines: &'a [RelationLine],
) -> Result<(), Memory>
    requires { home ≤ length sources.now.blocks.now }
    ensures { OnOk result (map seen_item out.new.items ≡ map seen_item out.old.items ++
        unfold_body sources.now.words.now (map seen_call sources.now.calls.now)
        (earlier sources.now home)
        frame.now.path frame.now.setting.value start 0 (map SLineOf (map plain_line lines.now))) }
{
    let mut next = start;
    for (i, line) in lines.iter().enumerate() {
        unfold_line(alloc, sources, out, home, frame, &mut next, i, line)?;
    }
    Ok(())
}

fn unfold_entry<'a>(
    alloc: Global,
    sources: &Sources<'_, 'a>,
    out: &mut Vec<Item<'a>>,
    frame: &Frame,
    next: &mut u32,
    i: usize,
    line: &'a SystemLine,
) -> Result<(), Memory>
    ensures items { OnOk result (map seen_item out.new.items ≡ map seen_item out.old.items ++
        unfold_entry sources.now.words.now (map seen_call sources.now.calls.now)
        (earlier sources.now (length sources.now.blocks.now))
        frame.now.path frame.now.setting.value next.old i (plain_sline line.now)) }
    ensures next { OnOk result (next.new ≡ next.old + length (entry_texts (plain_sline line.now))) }
{
    match line {
        SystemLine::Clocks(_) => Ok(()),
        SystemLine::Line(line) => {
            let home = sources.blocks.len();
            unfold_line(alloc, sources, out, home, frame, next, i, line)
        }
    }
}

/// What the lines of the system become, calls replaced by bodies; `start` is the number of their first text.
pub fn unfold_system<'a>(
    alloc: Global,
    sources: &Sources<'_, 'a>,
    frame: &Frame,
    start: u32,
    lines: &'a [SystemLine],
) -> Result<Vec<Item<'a>>, Memory>
    ensures { IfOk result (λ v. map seen_item v.items ≡
        unfold_body sources.now.words.now (map seen_call sources.now.calls.now)
        (earlier sources.now (length sources.now.blocks.now))
        frame.now.path frame.now.setting.value start 0 (map plain_sline lines.now)) }
{
    let mut items = Vec::new(alloc);
    let mut next = start;
    for (i, line) in lines.iter().enumerate() {
        unfold_entry(alloc, sources, &mut items, frame, &mut next, i, line)?;
    }
    Ok(items)
}
