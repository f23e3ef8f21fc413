//! The cells of parameters.

ghost use Rattle.std.specs.Prelude.{◌≡◌, ◌≤◌, ◌<◌, map, length};
ghost use Rattle.ccsl_kernel.specs.Actuals.{value_of};
ghost use Rattle.ccsl_kernel.specs.Fit.{SuffixFits, ActualFits, ActualsFit};
ghost use Rattle.ccsl_kernel.specs.Fitting.{ValuesFit};
ghost use Rattle.ccsl_state.specs.Layout.{actual_of};

use crate::cells::is_offset;
use ccsl_kernel::{Actual, Value};
use ccsl_words::Word;

/// The kinds of parameters: a cell has the kind in its lowest bits.
pub const KINDS: u64 = 4;

/// The offsets in a word that a cell has room for.
pub const OFFSETS: u64 = 8192;

/// What a parameter's cell stands for.
fn actual_at(words: &[Word], cell: u64) -> Actual
    ensures actual { result ≡ actual_of words.now cell }
    ensures fits { ActualFits words.now result }
{
    let low = (cell / KINDS % (1 << 32)) as u32;
    let word = (cell / (KINDS * OFFSETS) % (1 << 32)) as u32;
    let offset = cell / KINDS % OFFSETS;
    match cell % KINDS {
        0 => Actual::Clock(low),
        1 => Actual::Number(low),
        _ => {
            if is_offset(words, word, offset) {
                Actual::Word(word, offset)
            } else {
                Actual::Number(0)
            }
        }
    }
}

/// An offset at which a word stands.
fn short_offset(words: &[Word], word: u32, offset: u64) -> u64
    requires { SuffixFits words.now (record { word = word; offset = offset }) }
    ensures same { result ≡ offset }
    ensures short { result < OFFSETS }
{
    match words.get(word as usize) {
        Some(word) => offset.min(word.len()),
        None => 0,
    }
}

/// The cell of a parameter.
fn cell_of(words: &[Word], actual: Actual) -> u64
    requires { ActualFits words.now actual }
    ensures { actual_of words.now result ≡ actual }
{
    match actual {
        Actual::Clock(x) => u64::from(x) * KINDS,
        Actual::Number(n) => u64::from(n) * KINDS + 1,
        Actual::Word(word, offset) => {
            (u64::from(word) * OFFSETS + short_offset(words, word, offset)) * KINDS + 2
        }
    }
}

/// What parameters' cells stand for.
pub fn actuals_at(words: &[Word], cells: &[u64], actuals: &mut [Actual])
    requires { length actuals.old ≡ length cells.now }
    ensures actuals { actuals.new ≡ map (actual_of words.now) cells.now }
    ensures fit { ActualsFit words.now actuals.new }
{
    for i in 0..cells.len() {
        actuals[i] = actual_at(words, cells[i]);
    }
}

/// Writes parameters into their cells.
pub fn store(words: &[Word], actuals: &[Actual], cells: &mut [u64])
    requires same { length actuals.now ≡ length cells.old }
    requires fit { ActualsFit words.now actuals.now }
    ensures { map (actual_of words.now) cells.new ≡ actuals.now }
{
    for i in 0..actuals.len() {
        cells[i] = cell_of(words, actuals[i]);
    }
}

/// What the arguments of a call stand for.
pub fn values(words: &[Word], args: &[Value], actuals: &[Actual], out: &mut [Actual])
    requires same { length args.now ≡ length out.old }
    requires values { ValuesFit words.now args.now }
    requires actuals { ActualsFit words.now actuals.now }
    ensures values { out.new ≡ map (value_of words.now actuals.now) args.now }
    ensures fit { ActualsFit words.now out.new }
{
    for i in 0..args.len() {
        out[i] = args[i].actual(words, actuals);
    }
}
