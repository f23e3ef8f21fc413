//! Writing the text of a certificate.

ghost use Rattle.std.specs.Prelude.{◌≡◌, ◌<◌, ◌^◌, [], ◌∷◌, ◌++◌, true, All, IfOk, Ok, decimal, length, map};
ghost use Rattle.ccsl_base.specs.Name.{are_cert_names};
ghost use Rattle.ccsl_refute.specs.NumbersFit.{AllBelow, NumbersFit};
ghost use Rattle.ccsl_refute.specs.Reading.{reading};
ghost use Rattle.ccsl_refute.specs.Below.{AreBelow};
ghost use Rattle.ccsl_refute.specs.Writing.{spaced, literal_text, line_text, lines_text};
ghost use Rattle.ccsl_refute.specs.LineLiterals.{literals};

use crate::line::{Line, Lit};
use ccsl_base::{Memory, Names};
use itoa::Buffer;
use std::alloc::Global;

/// A blank and a word.
fn write_word(text: &mut Vec<u8>, word: &[u8]) -> Result<(), Memory>
    ensures { IfOk result (λ _. text.new.items ≡ text.old.items ++ spaced (word.now ∷ [])) }
{
    text.push(b' ')?;
    text.extend_from_slice(word)?;
    Ok(())
}

fn write_literal(text: &mut Vec<u8>, lit: Lit, names: &Names) -> Result<(), Memory>
    requires { lit.clock < length names.now }
    ensures { IfOk result (λ _. text.new.items
        ≡ text.old.items ++ spaced (literal_text names.now lit ∷ [])) }
{
    text.push(b' ')?;
    if !lit.positive {
        text.push(b'-')?;
    }
    text.extend_from_slice(names.get(lit.clock))?;
    Ok(())
}

fn write_literals(text: &mut Vec<u8>, lits: &[Lit], names: &Names) -> Result<(), Memory>
    requires { AreBelow (length names.now) lits.now }
    ensures { IfOk result (λ _. text.new.items
        ≡ text.old.items ++ spaced (map (literal_text names.now) lits.now)) }
{
    let mut rest = lits;
    'literals: while let [lit, more @ ..] = rest {
        write_literal(text, *lit, names)?;
        rest = more;
    }
    Ok(())
}

fn write_hints(text: &mut Vec<u8>, hints: &[u64]) -> Result<(), Memory>
    ensures fit { IfOk result (λ _. AllBelow (2 ^ 64) hints.now) }
    ensures text { IfOk result (λ _. text.new.items
        ≡ text.old.items ++ spaced (map decimal hints.now)) }
{
    let mut digits = Buffer::new();
    let mut rest = hints;
    'hints: while let [hint, more @ ..] = rest {
        write_word(text, digits.format(*hint).as_bytes())?;
        rest = more;
    }
    Ok(())
}

fn write_line(text: &mut Vec<u8>, line: &Line, names: &Names) -> Result<(), Memory>
    requires { AreBelow (length names.now) (literals line.now) }
    ensures fit { IfOk result (λ _. NumbersFit line.now) }
    ensures text { IfOk result (λ _. text.new.items
        ≡ text.old.items ++ line_text names.now line.now) }
{
    match line {
        Line::Nonempty => text.push(b'n')?,
        Line::Item(item, lits) => {
            text.push(b'i')?;
            write_word(text, Buffer::new().format(*item).as_bytes())?;
            write_literals(text, lits.members(), names)?;
        }
        Line::Derived(lits, hints) => {
            text.push(b'r')?;
            write_literals(text, lits.members(), names)?;
            write_word(text, b"from")?;
            write_hints(text, hints.members())?;
        }
    }
    Ok(())
}

/// The text of the lines of a certificate.
pub fn write(alloc: Global, lines: &[Line], names: &Names) -> Result<Vec<u8>, Memory>
    requires { All (λ line. AreBelow (length names.now) (literals line)) lines.now }
    ensures text { IfOk result (λ text. text.items ≡ lines_text names.now lines.now) }
    ensures reads_back { are_cert_names names.now ≡ true →
        IfOk result (λ text. reading names.now text.items ≡ Ok lines.now) }
{
    names.are_distinct();
    let mut text = Vec::new(alloc);
    'lines: for line in lines {
        write_line(&mut text, line, names)?;
        text.push(b'\n')?;
    }
    Ok(text)
}
