//! What stands behind an answer of `ccsl`: where in the text, what was bound, and why.
//!
//!     let said = read_report(report);             // Said::Broken { step: 2, time: 35, item }
//!     let asking = Asking { alloc, keys, own, again, said };
//!     show(&asking, &mut world, &mut out, &mut page, &command)?;
//!
//! In go the text that `ccsl` reported and the command; the files are read once more from the world. Out comes a page:
//! the line of the text with a mark, why the item fails, the steps before, as which variable each clock was recorded,
//! what is pending. `Own` asks for a trace with all computed clocks and for a drawing, which ccsl_waves writes to the
//! world `out`. A file that may not be read once more, as a pipe, is left out, and the page says so. Steps count from
//! 0, times are shown in the longest unit in which all of them are whole.
//!
//! Proved: it is safe, ends, and only reads the world of the files. Only tested: what is shown, by the stored answers
//! of `tests/shown`. `docs/SHOW.md` has examples. ccsl_show_top calls it.
#![tactic(auto)]

pub mod behind;
mod binding;
mod case;
mod cited;
mod clocks;
mod fault;
mod hint;
mod judged;
mod refused_trace;
pub mod said;
mod text;
mod traced;

pub use behind::{Again, Asking, Own, show};
pub use said::{Said, read_report};
