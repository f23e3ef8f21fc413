//! The expansion of a file behind a library.

ghost use Rattle.std.specs.Prelude.{◌≡◌, ◌≤◌, ◌+◌, ◌++◌, [], length, map, flat_map, filter_map, IfOk, OnOk};
ghost use Rattle.ccsl_base.specs.declared.limits.TheConstants.{MAX_CLOCKS};
ghost use Rattle.ccsl_ast.specs.Plain.{plain_sline, plain_definition};
ghost use Rattle.ccsl_ast.specs.Files.{plain_file};
ghost use Rattle.ccsl_kernel.specs.Plain.{plain_expr, plain_group, plain_system};
ghost use Rattle.ccsl_rules.specs.Texts.{block_texts, sheet_texts};
ghost use Rattle.ccsl_rules.specs.Unfolded.{own_clocks, unfold_body};
ghost use Rattle.ccsl_rules.specs.Expansion.{declared_names, written_item, hidden_item, item_definition, constraint_of, names_of, words_of, expand};
ghost use Rattle.ccsl_spaces.specs.Callees.{seen_call};
ghost use Rattle.ccsl_expand.specs.Numbered.{word_in, numbered, numbered_groups};
ghost use Rattle.ccsl_expand.specs.Seen.{seen_tables, seen_block};
ghost use Rattle.ccsl_expand.specs.Items.{seen_item, all_unfolded};
ghost use Rattle.ccsl_expand.specs.Bounds.{AreNew};
ghost use Rattle.ccsl_expand.specs.Expanded.{expanded, expanded_texts, numbered_files};

use crate::frame::{Frame, system_setting};
use crate::groups::groups;
use crate::item::Item;
use crate::naming::table;
use crate::system::{add_hidden, add_written, constraints, declared, push_hidden, push_written};
use crate::tables::Tables;
use crate::texts::{Block, read_definitions, read_system};
use crate::unfold::{Sources, unfold_system};
use ccsl_ast::{File, SystemLine};
use ccsl_base::{Memory, Seq, Text};
use ccsl_kernel::{Constraint, Expr, Group, Parts};
use ccsl_spaces::{Callee, Space, calls_space};
use ccsl_words::Word;
use std::alloc::Global;
use std::rc::Rc;

/// The words of all texts, the definitions with the numbers of their first texts, and the number of the first text of
/// the system's lines.
#[derive(Drop)]
struct Texts<'a> {
    words: Vec<Word>,
    blocks: Vec<Block<'a>>,
    start: u32,
}

fn read_file<'a>(
    alloc: Global,
    words: &mut Vec<Word>,
    blocks: &mut Vec<Block<'a>>,
    file: &'a File,
) -> Result<u32, Memory>
    ensures words { OnOk result (words.new.items ≡
        words.old.items ++ map word_in (sheet_texts (plain_file file.now))) }
    ensures blocks { OnOk result (map seen_block blocks.new.items
        ≡ map seen_block blocks.old.items ++
        numbered (length words.old.items) (plain_file file.now).definitions) }
    ensures start { IfOk result (λ start. start ≡
        length words.old.items + length (flat_map block_texts (plain_file file.now).definitions)) }
{
    read_definitions(alloc, words, blocks, file.definitions.members())?;
    let start = u32::try_from(words.len()).map_err(|_| Memory)?;
    read_system(alloc, words, file.lines.members())?;
    Ok(start)
}

fn read_files<'a>(alloc: Global, library: &'a File, file: &'a File) -> Result<Texts<'a>, Memory>
    ensures words { IfOk result (λ r. r.words.items
        ≡ words_of (plain_file library.now) (plain_file file.now)) }
    ensures blocks { IfOk result (λ r.
        map seen_block r.blocks.items ≡ numbered_files
        (plain_file library.now) (plain_file file.now)) }
    ensures start { IfOk result (λ r. r.start ≡ length (sheet_texts (plain_file library.now)) +
        length (flat_map block_texts (plain_file file.now).definitions)) }
{
    let mut words = Vec::new(alloc);
    let mut blocks = Vec::new(alloc);
    read_file(alloc, &mut words, &mut blocks, library)?;
    let start = read_file(alloc, &mut words, &mut blocks, file)?;
    Ok(Texts {
        words,
        blocks,
        start,
    })
}

fn system_frame(alloc: Global, lines: &[SystemLine]) -> Result<Frame, Memory>
    ensures path { IfOk result (λ f. f.path ≡ []) }
    ensures setting { IfOk result (λ f. f.setting.value
        ≡ own_clocks [] (map plain_sline lines.now)) }
{
    let setting = Rc::new(alloc, system_setting(alloc, lines)?)?;
    Ok(Frame {
        path: Text::new(Vec::new(alloc)),
        setting,
    })
}

fn unfolded<'a>(
    alloc: Global,
    sources: &Sources<'_, 'a>,
    start: u32,
    lines: &'a [SystemLine],
) -> Result<Vec<Item<'a>>, Memory>
    ensures { IfOk result (λ v. map seen_item v.items ≡
        unfold_body sources.now.words.now (map seen_call sources.now.calls.now)
        (all_unfolded sources.now)
        [] (own_clocks [] (map plain_sline lines.now)) start 0 (map plain_sline lines.now)) }
{
    let frame = system_frame(alloc, lines)?;
    unfold_system(alloc, sources, &frame, start, lines)
}

/// The names of clocks, and how many are declared and written.
#[derive(Drop)]
struct Naming {
    names: Vec<Text>,
    declared: u32,
    written: u32,
}

fn named(alloc: Global, lines: &[SystemLine], items: &[Item<'_>]) -> Result<Naming, Memory>
    ensures names { IfOk result (λ n. n.names.items ≡
        names_of (flat_map declared_names (map plain_sline lines.now)) (map seen_item items.now)) }
    ensures declared { IfOk result (λ n. n.declared ≡
        length (flat_map declared_names (map plain_sline lines.now))) }
    ensures written { IfOk result (λ n. n.written ≡
        length (flat_map declared_names (map plain_sline lines.now)) + length
        (filter_map written_item (map seen_item items.now))) }
{
    let mut names = declared(alloc, lines)?;
    let declared = u32::try_from(names.len()).map_err(|_| Memory)?;
    add_written(alloc, &mut names, items)?;
    let written = u32::try_from(names.len()).map_err(|_| Memory)?;
    add_hidden(alloc, &mut names, items)?;
    Ok(Naming {
        names,
        declared,
        written,
    })
}

fn definitions(
    alloc: Global,
    tables: &Tables<'_, '_>,
    items: &[Item<'_>],
) -> Result<Vec<Expr>, Memory>
    ensures { IfOk result (λ v. map plain_expr v.items
        ≡ map (item_definition (seen_tables tables.now))
        (filter_map written_item (map seen_item items.now)
        ++ filter_map hidden_item (map seen_item items.now))) }
{
    let mut out = Vec::new(alloc);
    push_written(alloc, tables, &mut out, items)?;
    push_hidden(alloc, tables, &mut out, items)?;
    Ok(out)
}

/// What the tables are needed for: the groups, the definitions and the constraints.
#[derive(Drop)]
struct Contents {
    groups: Seq<Group>,
    definitions: Seq<Expr>,
    constraints: Seq<Constraint>,
}

fn contents_of(
    alloc: Global,
    tables: &Tables<'_, '_>,
    blocks: &[Block<'_>],
    items: &[Item<'_>],
) -> Result<Contents, Memory>
    ensures groups { IfOk result (λ made. map plain_group made.groups ≡
        numbered_groups (seen_tables tables.now) (map seen_block blocks.now)) }
    ensures definitions { IfOk result (λ made. map plain_expr made.definitions ≡
        map (item_definition (seen_tables tables.now))
        (filter_map written_item (map seen_item items.now)
        ++ filter_map hidden_item (map seen_item items.now))) }
    ensures constraints { IfOk result (λ made. made.constraints ≡
        filter_map (constraint_of tables.now.names.now) (map seen_item items.now)) }
{
    let constraints = constraints(alloc, tables.names, items)?;
    let groups = groups(alloc, tables, blocks)?;
    let definitions = definitions(alloc, tables, items)?;
    Ok(Contents {
        groups: Seq::new(groups),
        definitions: Seq::new(definitions),
        constraints: Seq::new(constraints),
    })
}

fn parts<'a>(
    alloc: Global,
    calls: &Space<'a, Callee<'a>>,
    words: Vec<Word>,
    blocks: &[Block<'a>],
    lines: &[SystemLine],
    items: &[Item<'_>],
) -> Result<Parts, Memory>
    requires new { AreNew
        (names_of (flat_map declared_names (map plain_sline lines.now)) (map seen_item items.now)) }
    requires few { length
        (names_of (flat_map declared_names (map plain_sline lines.now)) (map seen_item items.now))
        ≤ MAX_CLOCKS }
    ensures { IfOk result (λ parts. plain_system parts ≡
        expanded words.items (map seen_call calls.now) (map seen_block blocks.now)
        (flat_map declared_names (map plain_sline lines.now)) (map seen_item items.now)) }
{
    let named = named(alloc, lines, items)?;
    let names = table(alloc, &named.names)?;
    let tables = Tables {
        names: &names,
        words: &words,
        calls,
    };
    let contents = contents_of(alloc, &tables, blocks, items)?;
    Ok(Parts {
        names,
        declared: named.declared,
        written: named.written,
        groups: contents.groups,
        words: Seq::new(words),
        definitions: contents.definitions,
        constraints: contents.constraints,
    })
}

fn expand_texts<'a>(
    alloc: Global,
    calls: &Space<'a, Callee<'a>>,
    words: Vec<Word>,
    blocks: &[Block<'a>],
    start: u32,
    lines: &'a [SystemLine],
) -> Result<Parts, Memory>
    requires new { AreNew
        (expanded_texts (map seen_call calls.now) words.items (map seen_block blocks.now) start
        (map plain_sline lines.now)).names }
    requires few { length
        (expanded_texts (map seen_call calls.now) words.items (map seen_block blocks.now) start
        (map plain_sline lines.now)).names ≤ MAX_CLOCKS }
    ensures { IfOk result (λ parts. plain_system parts ≡
        expanded_texts (map seen_call calls.now) words.items (map seen_block blocks.now) start
        (map plain_sline lines.now)) }
{
    let sources = Sources {
        blocks,
        words: &words,
        calls,
    };
    let items = unfolded(alloc, &sources, start, lines)?;
    parts(alloc, calls, words, blocks, lines, &items)
}

/// The parts of the system that a file behind a library stands for. Its texts are to be words: where one is not,
/// `Memory` is answered.
pub fn expand(alloc: Global, library: &File, file: &File) -> Result<Parts, Memory>
    requires new { AreNew (expand (plain_file library.now) (plain_file file.now)).names }
    requires few { length (expand (plain_file library.now) (plain_file file.now)).names
        ≤ MAX_CLOCKS }
    ensures { IfOk result (λ parts.
        plain_system parts ≡ expand (plain_file library.now) (plain_file file.now)) }
{
    let calls = calls_space(
        alloc,
        library.definitions.members(),
        file.definitions.members(),
    )?;
    let texts = read_files(alloc, library, file)?;
    let Texts {
        words,
        blocks,
        start,
    } = texts;
    expand_texts(alloc, &calls, words, &blocks, start, file.lines.members())
}
