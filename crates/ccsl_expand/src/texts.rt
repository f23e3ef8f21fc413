//! The words of quoted texts, one each, in text order.

ghost use Rattle.std.specs.Prelude.{◌≡◌, ◌+◌, ◌∷◌, ◌++◌, [], length, map, flat_map, OnOk};
ghost use Rattle.ccsl_ast.specs.Plain.{plain, plain_line, plain_sline, plain_member, plain_definition};
ghost use Rattle.ccsl_rules.specs.Texts.{word_texts, argument_texts, texts, line_texts, entry_texts, block_texts};
ghost use Rattle.ccsl_expand.specs.Numbered.{word_in, numbered};
ghost use Rattle.ccsl_expand.specs.Seen.{seen_block};

use ccsl_ast::{Argument, Definition, Member, RelationLine, SystemLine, Tree, WordTerm};
use ccsl_base::{Memory, Text};
use ccsl_words::Word;
use std::alloc::Global;

/// A definition, and the number of its first text.
#[derive(Clone, Copy)]
pub struct Block<'a> {
    pub start: u32,
    pub definition: &'a Definition,
}

// A text that is no word is a fault of the file, and the words are read where it has none.
fn read_text(alloc: Global, words: &mut Vec<Word>, text: &Text) -> Result<(), Memory>
    ensures { OnOk result (words.new.items ≡ words.old.items ++ word_in text.now ∷ []) }
{
    match Word::read(alloc, text.bytes()) {
        Ok(word) => {
            words.push(word)?;
            Ok(())
        }
        Err(_) => Err(Memory),
    }
}

fn read_arguments(alloc: Global, words: &mut Vec<Word>, args: &[Argument]) -> Result<(), Memory>
    ensures { OnOk result (words.new.items ≡
        words.old.items ++ map word_in (flat_map argument_texts args.now)) }
{
    for argument in args {
        if let Argument::Text(_, text) = argument {
            read_text(alloc, words, text)?;
        }
    }
    Ok(())
}

fn read_tree(alloc: Global, words: &mut Vec<Word>, tree: &Tree) -> Result<(), Memory>
    ensures { OnOk result (words.new.items ≡
        words.old.items ++ map word_in (texts (plain tree.now))) }
{
    match tree {
        Tree::Name(_) | Tree::Never => Ok(()),
        Tree::Call(_, args) => read_arguments(alloc, words, args.members()),
        Tree::Binary(_, a, d) | Tree::Delayed(a, _, _, d) | Tree::If(_, a, d) => {
            read_tree(alloc, words, a)?;
            read_tree(alloc, words, d)
        }
        Tree::Delay(a, _) | Tree::Await(a, _) => read_tree(alloc, words, a),
        Tree::Filter(a, word) => {
            read_tree(alloc, words, a)?;
            if let WordTerm::Text(_, text) = word {
                return read_text(alloc, words, text);
            }
            Ok(())
        }
    }
}

fn read_line(alloc: Global, words: &mut Vec<Word>, line: &RelationLine) -> Result<(), Memory>
    ensures { OnOk result (words.new.items ≡
        words.old.items ++ map word_in (line_texts (plain_line line.now))) }
{
    match line {
        RelationLine::Define(_, tree) => read_tree(alloc, words, tree),
        RelationLine::Constraint(_, _, _) => Ok(()),
        RelationLine::Call(_, args) => read_arguments(alloc, words, args.members()),
    }
}

fn read_body(alloc: Global, words: &mut Vec<Word>, lines: &[RelationLine]) -> Result<(), Memory>
    ensures { OnOk result (words.new.items ≡
        words.old.items ++ map word_in (flat_map line_texts (map plain_line lines.now))) }
{
    for line in lines {
        read_line(alloc, words, line)?;
    }
    Ok(())
}

fn read_members(alloc: Global, words: &mut Vec<Word>, members: &[Member]) -> Result<(), Memory>
    ensures { OnOk result (words.new.items ≡ words.old.items ++
        map word_in (flat_map (λ m. texts m.body) (map plain_member members.now))) }
{
    for member in members {
        read_tree(alloc, words, &member.body)?;
    }
    Ok(())
}

fn read_definition(
    alloc: Global,
    words: &mut Vec<Word>,
    definition: &Definition,
) -> Result<(), Memory>
    ensures { OnOk result (words.new.items ≡
        words.old.items ++ map word_in (block_texts (plain_definition definition.now))) }
{
    match definition {
        Definition::Relation { lines, .. } => read_body(alloc, words, lines.members()),
        Definition::Group(members) => read_members(alloc, words, members.members()),
    }
}

/// Reads the texts of a system's lines.
pub fn read_system(alloc: Global, words: &mut Vec<Word>, lines: &[SystemLine]) -> Result<(), Memory>
    ensures { OnOk result (words.new.items ≡
        words.old.items ++ map word_in (flat_map entry_texts (map plain_sline lines.now))) }
{
    for line in lines {
        if let SystemLine::Line(line) = line {
            read_line(alloc, words, line)?;
        }
    }
    Ok(())
}

/// Reads the texts of definitions, and numbers them by their first texts.
pub fn read_definitions<'a>(
    alloc: Global,
    words: &mut Vec<Word>,
    blocks: &mut Vec<Block<'a>>,
    definitions: &'a [Definition],
) -> Result<(), Memory>
    ensures words { OnOk result (words.new.items ≡
        words.old.items ++ map word_in
        (flat_map block_texts (map plain_definition definitions.now))) }
    ensures numbered { OnOk result (map seen_block blocks.new.items
        ≡ map seen_block blocks.old.items ++
        numbered (length words.old.items) (map plain_definition definitions.now)) }
{
    for definition in definitions {
        let start = u32::try_from(words.len()).map_err(|_| Memory)?;
        blocks.push(Block { start, definition })?;
        read_definition(alloc, words, definition)?;
    }
    Ok(())
}
