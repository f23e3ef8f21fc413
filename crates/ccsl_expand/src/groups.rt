//! The groups of expressions.

ghost use Rattle.std.specs.Prelude.{◌≡◌, ◌+◌, ◌++◌, length, map, IfOk, OnOk};
ghost use Rattle.ccsl_ast.specs.Plain.{plain_member};
ghost use Rattle.ccsl_kernel.specs.Plain.{plain_body, plain_group};
ghost use Rattle.ccsl_rules.specs.Texts.{texts};
ghost use Rattle.ccsl_rules.specs.Expansion.{kind_in, own_params, part_body, part_bodies};
ghost use Rattle.ccsl_expand.specs.Numbered.{group_in, numbered_groups};
ghost use Rattle.ccsl_expand.specs.Seen.{seen_tables, seen_block};

use crate::atom::Atom;
use crate::expression::resolve;
use crate::setting::Setting;
use crate::tables::Tables;
use crate::texts::Block;
use ccsl_ast::{Definition, Kind, Member, Param};
use ccsl_base::{Memory, Seq};
use ccsl_kernel::{Body, Group, ParamKind};
use std::alloc::Global;

fn kind(kind: Kind) -> ParamKind
    ensures { result ≡ kind_in kind }
{
    match kind {
        Kind::Clock => ParamKind::Clock,
        Kind::Number => ParamKind::Number,
        Kind::Word => ParamKind::Word,
    }
}

fn kinds(alloc: Global, params: &[Param]) -> Result<Seq<ParamKind>, Memory>
    ensures { IfOk result (λ kinds. kinds ≡ map (λ p. kind_in p.kind) params.now) }
{
    let mut kinds = Vec::new(alloc);
    for param in params {
        kinds.push(kind(param.kind))?;
    }
    Ok(Seq::new(kinds))
}

// In the body of an expression a parameter stands for itself.
fn own_params(alloc: Global, params: &[Param]) -> Result<Setting, Memory>
    ensures { IfOk result (λ s. s ≡ own_params 0 params.now) }
{
    let mut setting = Setting::new(alloc);
    for (i, param) in params.iter().enumerate() {
        let number = u32::try_from(i).map_err(|_| Memory)?;
        setting = setting.with(param.name.name.bytes(), Atom::Param(number, param.kind))?;
    }
    Ok(setting)
}

fn body(
    alloc: Global,
    tables: &Tables<'_, '_>,
    next: &mut u32,
    member: &Member,
) -> Result<Body, Memory>
    ensures body { IfOk result (λ b.
        plain_body b ≡ part_body (seen_tables tables.now) next.old (plain_member member.now)) }
    ensures next { OnOk result (next.new
        ≡ next.old + length (texts (plain_member member.now).body)) }
{
    let setting = own_params(alloc, member.params.members())?;
    let params = kinds(alloc, member.params.members())?;
    let root = resolve(alloc, tables, &setting, next, &member.body)?;
    Ok(Body { params, root })
}

fn bodies(
    alloc: Global,
    tables: &Tables<'_, '_>,
    start: u32,
    members: &[Member],
) -> Result<Vec<Body>, Memory>
    ensures { IfOk result (λ v. map plain_body v.items ≡
        part_bodies (seen_tables tables.now) start (map plain_member members.now)) }
{
    let mut bodies = Vec::new(alloc);
    let mut next = start;
    for member in members {
        bodies.push(body(alloc, tables, &mut next, member)?)?;
    }
    Ok(bodies)
}

fn push_group(
    alloc: Global,
    tables: &Tables<'_, '_>,
    out: &mut Vec<Group>,
    block: &Block<'_>,
) -> Result<(), Memory>
    ensures { OnOk result (map plain_group out.new.items ≡ map plain_group out.old.items ++
        group_in (seen_tables tables.now) block.now.start (seen_block block.now).definition) }
{
    if let Definition::Group(members) = block.definition {
        let members = bodies(alloc, tables, block.start, members.members())?;
        out.push(Group {
            members: Seq::new(members),
        })?;
    }
    Ok(())
}

/// The groups among numbered definitions.
pub fn groups(
    alloc: Global,
    tables: &Tables<'_, '_>,
    blocks: &[Block<'_>],
) -> Result<Vec<Group>, Memory>
    ensures { IfOk result (λ v. map plain_group v.items ≡
        numbered_groups (seen_tables tables.now) (map seen_block blocks.now)) }
{
    let mut groups = Vec::new(alloc);
    for block in blocks {
        push_group(alloc, tables, &mut groups, block)?;
    }
    Ok(groups)
}
