//! Expressions with numbers in place of names.

ghost use Rattle.std.specs.Prelude.{◌≡◌, ◌+◌, length, flat_map, IfOk, OnOk};
ghost use Rattle.std.specs.Option.{option_map};
ghost use Rattle.ccsl_ast.specs.Trees.{EFilter, EIf};
ghost use Rattle.ccsl_ast.specs.Plain.{plain};
ghost use Rattle.ccsl_kernel.specs.Syntax.{ECall};
ghost use Rattle.ccsl_kernel.specs.Plain.{plain_expr};
ghost use Rattle.ccsl_rules.specs.Spaces.{look};
ghost use Rattle.ccsl_rules.specs.Texts.{texts, argument_texts};
ghost use Rattle.ccsl_rules.specs.Settings.{atom_of};
ghost use Rattle.ccsl_rules.specs.Uses.{single};
ghost use Rattle.ccsl_rules.specs.Resolved.{alone, param_value, atom_value, resolve_op, resolve_term, resolve, resolve_call};
ghost use Rattle.ccsl_rules.specs.Resolved.{resolve_argument, resolve_arguments};
ghost use Rattle.ccsl_expand.specs.Seen.{seen_tables};

use crate::atom::Atom;
use crate::callee::callee;
use crate::setting::Setting;
use crate::tables::{Tables, clock_number};
use crate::term::{place, tail, take_text, term, test, word};
use ccsl_ast::{Argument, BinaryOp, Kind, Primary, Spot, Term, Test, Tree, WordTerm};
use ccsl_base::{Memory, Seq};
use ccsl_kernel::{Expr, ExprOp, NumPrim, NumTerm, Place, Value, WordPlace};
use ccsl_spaces::Role;
use std::alloc::Global;

/// The name that a sum is, where it is a name alone.
pub fn single(term: &Term) -> Option<&Spot>
    ensures { option_map (λ s. s.now) result ≡ single term.now }
{
    match &term.first {
        Primary::Name(name) if term.rest.members().is_empty() => Some(name),
        _ => None,
    }
}

fn alone(alloc: Global, number: NumPrim) -> NumTerm
    ensures { result ≡ alone number }
{
    NumTerm {
        first: number,
        rest: Seq::new(Vec::new(alloc)),
    }
}

fn param_value(alloc: Global, i: u32, kind: Kind) -> Value
    ensures { result ≡ param_value i kind }
{
    match kind {
        Kind::Clock => Value::Clock(Place::Param(i)),
        Kind::Number => Value::Number(alone(alloc, NumPrim::Param(i))),
        Kind::Word => Value::Word(WordPlace::Param(i)),
    }
}

// What an argument is that is a name alone.
fn named_value(alloc: Global, tables: &Tables<'_, '_>, setting: &Setting, name: &Spot) -> Value
    ensures { result ≡ atom_value (seen_tables tables.now) (atom_of setting.now name.now.name) }
{
    match setting.find(name.name.bytes()) {
        Some(Atom::Clock(whole)) => {
            let number = clock_number(tables.names, whole.bytes());
            Value::Clock(Place::Clock(number))
        }
        Some(Atom::Number(n)) => Value::Number(alone(alloc, NumPrim::Num(*n))),
        Some(Atom::Word(word, offset)) => Value::Word(WordPlace::Word(*word, *offset)),
        Some(Atom::Param(i, kind)) => param_value(alloc, *i, *kind),
        None => Value::Number(alone(alloc, NumPrim::Num(0))),
    }
}

fn argument(
    alloc: Global,
    tables: &Tables<'_, '_>,
    setting: &Setting,
    next: &mut u32,
    argument: &Argument,
) -> Result<Value, Memory>
    ensures value { IfOk result (λ v.
        v ≡ resolve_argument (seen_tables tables.now) setting.now next.old argument.now) }
    ensures next { OnOk result (next.new ≡ next.old + length (argument_texts argument.now)) }
{
    match argument {
        Argument::Term(sum) => match single(sum) {
            Some(name) => Ok(named_value(alloc, tables, setting, name)),
            None => Ok(Value::Number(term(alloc, setting, sum)?)),
        },
        Argument::Text(_, _) => Ok(Value::Word(WordPlace::Word(take_text(next)?, 0))),
        Argument::Tail(name) => Ok(Value::Word(tail(tables, setting, name)?)),
    }
}

fn arguments(
    alloc: Global,
    tables: &Tables<'_, '_>,
    setting: &Setting,
    next: &mut u32,
    arguments: &[Argument],
) -> Result<Seq<Value>, Memory>
    ensures values { IfOk result (λ v.
        v ≡ resolve_arguments (seen_tables tables.now) setting.now next.old arguments.now) }
    ensures next { OnOk result (next.new
        ≡ next.old + length (flat_map argument_texts arguments.now)) }
{
    let mut values = Vec::new(alloc);
    for given in arguments {
        values.push(argument(alloc, tables, setting, next, given)?)?;
    }
    Ok(Seq::new(values))
}

fn operator(op: BinaryOp) -> ExprOp
    ensures { result ≡ resolve_op op }
{
    match op {
        BinaryOp::Union => ExprOp::Union,
        BinaryOp::Inter => ExprOp::Inter,
        BinaryOp::Minus => ExprOp::Minus,
        BinaryOp::Inf => ExprOp::Inf,
        BinaryOp::Sup => ExprOp::Sup,
        BinaryOp::Upto => ExprOp::Upto,
        BinaryOp::UptoWeakly => ExprOp::UptoWeakly,
        BinaryOp::Then => ExprOp::Then,
        BinaryOp::Sampled => ExprOp::Sampled,
        BinaryOp::SampledWeakly => ExprOp::SampledWeakly,
    }
}

// What a call of a name is; a name that is no expression's calls nothing.
fn called(tables: &Tables<'_, '_>, name: &Spot, args: Seq<Value>) -> Result<Expr, Memory>
    ensures { IfOk result (λ e.
        plain_expr e ≡ resolve_call (look name.now.name (seen_tables tables.now).calls) args) }
{
    match callee(tables.calls, name) {
        None => Ok(Expr::Never),
        Some(found) => match found.role {
            Role::Relation => Ok(Expr::Never),
            Role::Member { group, number } => member_call(group, number, args),
        },
    }
}

fn member_call(group: usize, number: usize, args: Seq<Value>) -> Result<Expr, Memory>
    ensures { IfOk result (λ e. plain_expr e ≡ ECall group number args) }
{
    let group = u32::try_from(group).map_err(|_| Memory)?;
    let member = u32::try_from(number).map_err(|_| Memory)?;
    Ok(Expr::Call {
        group,
        member,
        args,
    })
}

// Two operands on the heap, the left one first.
#[cycle(resolving)]
fn operands(
    alloc: Global,
    tables: &Tables<'_, '_>,
    setting: &Setting,
    next: &mut u32,
    left: &Tree,
    right: &Tree,
) -> Result<(Box<Expr>, Box<Expr>), Memory>
    ensures left { IfOk result (λ both.
        plain_expr both.0.value ≡ resolve (seen_tables tables.now) setting.now
        next.old (plain left.now)) }
    ensures right { IfOk result (λ both. plain_expr both.1.value ≡
        resolve (seen_tables tables.now) setting.now
        (next.old + length (texts (plain left.now))) (plain right.now)) }
    ensures next { OnOk result (next.new ≡
        next.old + (length (texts (plain left.now)) + length (texts (plain right.now)))) }
{
    let left = operand(alloc, tables, setting, next, left)?;
    let right = operand(alloc, tables, setting, next, right)?;
    Ok((left, right))
}

// An operand on the heap.
#[cycle(resolving)]
fn operand(
    alloc: Global,
    tables: &Tables<'_, '_>,
    setting: &Setting,
    next: &mut u32,
    tree: &Tree,
) -> Result<Box<Expr>, Memory>
    ensures expression { IfOk result (λ e.
        plain_expr e.value ≡ resolve (seen_tables tables.now) setting.now
        next.old (plain tree.now)) }
    ensures next { OnOk result (next.new ≡ next.old + length (texts (plain tree.now))) }
{
    let expression = resolve(alloc, tables, setting, next, tree)?;
    Ok(Box::new(alloc, expression)?)
}

// An operand filtered by a word. The word's text comes behind those of the operand.
#[cycle(resolving)]
fn filtered(
    alloc: Global,
    tables: &Tables<'_, '_>,
    setting: &Setting,
    next: &mut u32,
    tree: &Tree,
    by: &WordTerm,
) -> Result<Expr, Memory>
    ensures expression { IfOk result (λ e. plain_expr e ≡
        resolve (seen_tables tables.now) setting.now next.old (EFilter (plain tree.now) by.now)) }
    ensures next { OnOk result (next.new ≡
        next.old + length (texts (EFilter (plain tree.now) by.now))) }
{
    let operand = operand(alloc, tables, setting, next, tree)?;
    let word = word(tables, setting, next, by)?;
    Ok(Expr::Filter(operand, word))
}

// An operand with the number behind its operator.
#[cycle(resolving)]
fn counted(
    alloc: Global,
    tables: &Tables<'_, '_>,
    setting: &Setting,
    next: &mut u32,
    tree: &Tree,
    count: &Term,
) -> Result<(Box<Expr>, NumTerm), Memory>
    ensures expression { IfOk result (λ both. plain_expr both.0.value ≡
        resolve (seen_tables tables.now) setting.now next.old (plain tree.now)) }
    ensures count { IfOk result (λ both. both.1 ≡ resolve_term setting.now count.now) }
    ensures next { OnOk result (next.new ≡ next.old + length (texts (plain tree.now))) }
{
    let count = term(alloc, setting, count)?;
    Ok((operand(alloc, tables, setting, next, tree)?, count))
}

// A choice between two operands by a test.
#[cycle(resolving)]
fn choice(
    alloc: Global,
    tables: &Tables<'_, '_>,
    setting: &Setting,
    next: &mut u32,
    asked: &Test,
    first: &Tree,
    second: &Tree,
) -> Result<Expr, Memory>
    ensures expression { IfOk result (λ e. plain_expr e ≡
        resolve (seen_tables tables.now) setting.now next.old
        (EIf asked.now (plain first.now) (plain second.now))) }
    ensures next { OnOk result (next.new ≡
        next.old + length (texts (EIf asked.now (plain first.now) (plain second.now)))) }
{
    let (first, second) = operands(alloc, tables, setting, next, first, second)?;
    let asked = test(alloc, setting, asked)?;
    Ok(Expr::If(asked, first, second))
}

/// An expression under a setting. `next` is the number of its first text before, and of the text behind it after.
#[cycle(resolving)]
pub fn resolve(
    alloc: Global,
    tables: &Tables<'_, '_>,
    setting: &Setting,
    next: &mut u32,
    tree: &Tree,
) -> Result<Expr, Memory>
    ensures expression { IfOk result (λ e.
        plain_expr e ≡ resolve (seen_tables tables.now) setting.now next.old (plain tree.now)) }
    ensures next { OnOk result (next.new ≡ next.old + length (texts (plain tree.now))) }
{
    match tree {
        Tree::Name(name) => Ok(Expr::Name(place(tables, setting, name))),
        Tree::Call(name, args) => {
            let args = arguments(alloc, tables, setting, next, args.members())?;
            called(tables, name, args)
        }
        Tree::Never => Ok(Expr::Never),
        Tree::Binary(op, a, d) => {
            let (a, d) = operands(alloc, tables, setting, next, a, d)?;
            Ok(Expr::Binary(operator(*op), a, d))
        }
        Tree::Delay(a, m) => {
            let (a, m) = counted(alloc, tables, setting, next, a, m)?;
            Ok(Expr::Delay(a, m))
        }
        Tree::Await(a, m) => {
            let (a, m) = counted(alloc, tables, setting, next, a, m)?;
            Ok(Expr::Await(a, m))
        }
        Tree::Filter(a, w) => filtered(alloc, tables, setting, next, a, w),
        Tree::Delayed(a, _, m, d) => {
            let (a, d) = operands(alloc, tables, setting, next, a, d)?;
            Ok(Expr::Delayed(a, *m, d))
        }
        Tree::If(q, a, d) => choice(alloc, tables, setting, next, q, a, d),
    }
}
