//! Single cells: counts, flags and parameters; and how many cells an expression has.

ghost use Rattle.std.specs.Prelude.{◌≡◌, ◌≤◌, ◌<◌, ◌+◌, ◌^◌, length, nat_eq};
ghost use Rattle.ccsl_kernel.specs.Plain.{plain_expr};
ghost use Rattle.ccsl_kernel.specs.Actuals.{word_of};
ghost use Rattle.ccsl_kernel.specs.Cells.{cells_in};
ghost use Rattle.ccsl_kernel.specs.Fit.{ActualFits, SuffixFits};
ghost use Rattle.ccsl_state.specs.Tree.{bumped};
ghost use Rattle.ccsl_state.specs.Layout.{count_of, is_offset, offset_of, actual_of, own_cells};
ghost use Rattle.ccsl_state.specs.Standing.{is_then};

use ccsl_base::MAX_CELLS;
use ccsl_kernel::{Expr, ExprOp, Suffix};
use ccsl_words::Word;

/// The count that a cell holds.
pub fn count_at(cell: u64) -> u64
    ensures { result ≡ count_of cell }
{
    cell
}

/// A count after a step.
pub fn bumped(tick: bool, count: u64) -> u64
    ensures { count_of result ≡ bumped tick count }
{
    if tick { count.saturating_add(1) } else { count }
}

/// Whether a count is one less than a number.
pub fn is_next(count: u64, m: u32) -> bool
    ensures { result ≡ nat_eq (count + 1) m }
{
    count < u64::from(m) && count + 1 == u64::from(m)
}

/// Whether a word can stand at an offset.
pub fn is_offset(words: &[Word], word: u32, offset: u64) -> bool
    ensures { result ≡ is_offset (word_of words.now word) offset }
{
    match words.get(word as usize) {
        Some(word) => offset < word.len() + u64::from(word.is_finite()),
        None => offset < 1,
    }
}

/// The suffix of a word at the offset that a cell holds.
pub fn suffix_at(words: &[Word], word: u32, cell: u64) -> Suffix
    ensures suffix { result ≡
        record { word = word; offset = offset_of (word_of words.now word) cell } }
    ensures fits { SuffixFits words.now result }
{
    let offset = if is_offset(words, word, cell) {
        cell
    } else {
        0
    };
    Suffix { word, offset }
}

/// Whether an operator is `then`, whose right operand is born behind the left one.
pub fn is_then(op: ExprOp) -> bool
    ensures { result ≡ is_then op }
{
    matches!(op, ExprOp::Then)
}

/// The cells of an operator before its operands' regions.
pub fn own_cells(op: ExprOp) -> usize
    ensures own { result ≡ own_cells op }
    ensures few { result ≤ 2 }
{
    match op {
        ExprOp::Inf | ExprOp::Sup => 2,
        _ => 1,
    }
}

/// The cells of an expression.
pub fn size_of(e: &Expr, earlier: &[u32]) -> usize
    requires { cells_in earlier.now (plain_expr e.now) ≤ MAX_CELLS }
    ensures { result ≡ cells_in earlier.now (plain_expr e.now) }
{
    match e {
        Expr::Name(_) | Expr::Never => 1,
        Expr::Call { group, .. } => earlier.get(*group as usize).copied().unwrap_or(0) as usize,
        Expr::Binary(op, a, d) => {
            if is_then(*op) {
                1 + size_of(a, earlier).max(size_of(d, earlier))
            } else {
                own_cells(*op) + size_of(a, earlier) + size_of(d, earlier)
            }
        }
        Expr::Delay(a, _) | Expr::Await(a, _) | Expr::Filter(a, _) => 1 + size_of(a, earlier),
        Expr::Delayed(a, m, d) => {
            2 + m.div_ceil(64) as usize + size_of(a, earlier) + size_of(d, earlier)
        }
        Expr::If(_, a, d) => 1 + size_of(a, earlier).max(size_of(d, earlier)),
    }
}
