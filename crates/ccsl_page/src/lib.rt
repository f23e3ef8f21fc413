//! What is shown to a person: pages of text, places in a text, and ticks as rows.
//!
//!     let mut page = Page::new(alloc);            // `coloured` makes one for a terminal
//!     put_excerpt(&mut page, "typo.ccsl", text, 60, 5, &[Piece::Text("nothing is called so")])?;
//!     put_ticks(&mut page, &names, &clocks, &columns, scale, Some(2))?;
//!     page.bytes()                                // "typo.ccsl:4:20\n  4 |   request precedes garnt;\n" and so on
//!
//! A place in a text is a byte's number, from 0, and is shown as a line and a column, both from 1; a column counts
//! bytes. Times are given in the trace's own unit. A `Scale` is read from the words of `$timescale` and says in which
//! unit they are shown; `fitted` takes the longest one in which all of them are whole.
//!
//! Proved: `place_of` gives exactly the line and the column, and a page grows by exactly the text of its pieces. Only
//! tested: marks under a line, rows of ticks, times with their unit. The only error is want of memory. ccsl_causes and
//! ccsl_show put pages, ccsl_follow makes the columns, and ccsl_events_top puts its line.
#![tactic(auto)]

pub mod excerpt;
pub mod page;
pub mod paint;
pub mod place;
pub mod ticks;
pub mod time;

pub use excerpt::{put_excerpt, put_line_at};
pub use page::{Page, Piece};
pub use paint::Paint;
pub use place::{Place, line_around, place_of};
pub use ticks::{Column, put_ticks};
pub use time::{Scale, TimeUnit};
