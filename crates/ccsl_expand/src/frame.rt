//! A body under a path: what its names stand for.

ghost use Rattle.std.specs.Prelude.{◌≡◌, ◌+◌, ◌∷◌, ◌++◌, [], length, map, flat_map, slice_get, IfOk, OnOk};
ghost use Rattle.ccsl_ast.specs.Trees.{SLineOf};
ghost use Rattle.ccsl_ast.specs.Plain.{plain_line, plain_sline};
ghost use Rattle.ccsl_rules.specs.Texts.{argument_texts};
ghost use Rattle.ccsl_rules.specs.Settings.{AClock, argument_atoms};
ghost use Rattle.ccsl_rules.specs.Unfolded.{inside, arguments, own_clocks};
ghost use Rattle.ccsl_rules.specs.Spaces.{declares};
ghost use Rattle.ccsl_expand.specs.Numbered.{bound};
ghost use Rattle.ccsl_expand.specs.Seen.{seen_atom};

use crate::argument::value;
use crate::atom::Atom;
use crate::path::inside;
use crate::setting::Setting;
use ccsl_ast::{Argument, Param, RelationLine, Spot, SystemLine};
use ccsl_base::{Memory, Text};
use ccsl_words::Word;
use std::alloc::Global;
use std::rc::Rc;

/// The path of a body, and what its names stand for.
pub struct Frame {
    pub path: Text,
    pub setting: Rc<Setting>,
}

// By hand and not derived: to the prover, an early return then drops one by a single call.
impl Drop for Frame {
    fn drop(self) {
        let Frame {
            path: _path,
            setting: _setting,
        } = self;
    }
}

// A name of a body stands for the clock with the path before the name.
fn bind_clock(alloc: Global, setting: Setting, path: &[u8], name: &Spot) -> Result<Setting, Memory>
    ensures { IfOk result (λ s.
        s ≡ setting ++ (name.now.name, AClock (inside path.now name.now.name)) ∷ []) }
{
    let whole = Text::new(inside(alloc, path, name.name.bytes())?);
    setting.with(name.name.bytes(), Atom::Clock(whole))
}

fn bind_line(
    alloc: Global,
    setting: Setting,
    path: &[u8],
    line: &RelationLine,
) -> Result<Setting, Memory>
    ensures { IfOk result (λ s.
        s ≡ setting ++
        map (λ x. (x.name, AClock (inside path.now x.name)))
        (declares (SLineOf (plain_line line.now)))) }
{
    match line {
        RelationLine::Define(name, _) => bind_clock(alloc, setting, path, name),
        _ => Ok(setting),
    }
}

/// Adds the clocks that a relation's body declares.
pub fn bind_body(
    alloc: Global,
    mut setting: Setting,
    path: &[u8],
    lines: &[RelationLine],
) -> Result<Setting, Memory>
    ensures { IfOk result (λ s.
        s ≡ setting ++ own_clocks path.now (map SLineOf (map plain_line lines.now))) }
{
    for line in lines {
        setting = bind_line(alloc, setting, path, line)?;
    }
    Ok(setting)
}

fn bind_declared(alloc: Global, mut setting: Setting, names: &[Spot]) -> Result<Setting, Memory>
    ensures { IfOk result (λ s.
        s ≡ setting ++ map (λ x. (x.name, AClock (inside [] x.name))) names.now) }
{
    for name in names {
        setting = bind_clock(alloc, setting, &[], name)?;
    }
    Ok(setting)
}

fn bind_system_line(alloc: Global, setting: Setting, line: &SystemLine) -> Result<Setting, Memory>
    ensures { IfOk result (λ s.
        s ≡ setting ++ map (λ x. (x.name, AClock (inside [] x.name)))
        (declares (plain_sline line.now))) }
{
    match line {
        SystemLine::Clocks(names) => bind_declared(alloc, setting, names.members()),
        SystemLine::Line(line) => bind_line(alloc, setting, &[], line),
    }
}

/// What the names of a system's lines stand for.
pub fn system_setting(alloc: Global, lines: &[SystemLine]) -> Result<Setting, Memory>
    ensures { IfOk result (λ s. s ≡ own_clocks [] (map plain_sline lines.now)) }
{
    let mut setting = Setting::new(alloc);
    for line in lines {
        setting = bind_system_line(alloc, setting, line)?;
    }
    Ok(setting)
}

// An argument behind the last parameter is left out.
fn bind_argument(
    setting: Setting,
    params: &[Param],
    i: usize,
    atom: Atom,
) -> Result<Setting, Memory>
    ensures { IfOk result (λ s. s ≡ setting ++ bound (slice_get params.now i) (seen_atom atom)) }
{
    match params.get(i) {
        Some(param) => setting.with(param.name.name.bytes(), atom),
        None => Ok(setting),
    }
}

/// What the parameters of a relation stand for in a call. `next` is the number of the first text of the arguments
/// before, and of the text behind them after.
pub fn bind_arguments(
    alloc: Global,
    words: &[Word],
    outer: &Setting,
    next: &mut u32,
    params: &[Param],
    args: &[Argument],
) -> Result<Setting, Memory>
    ensures setting { IfOk result (λ s.
        s ≡ arguments params.now (argument_atoms words.now outer.now next.old args.now)) }
    ensures next { OnOk result (next.new ≡ next.old + length (flat_map argument_texts args.now)) }
{
    let mut setting = Setting::new(alloc);
    for (i, argument) in args.iter().enumerate() {
        let atom = value(alloc, words, outer, next, argument)?;
        setting = bind_argument(setting, params, i, atom)?;
    }
    Ok(setting)
}
