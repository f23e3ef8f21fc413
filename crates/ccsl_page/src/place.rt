//! Places in a text.

ghost use Rattle.std.specs.Prelude.{◌≡◌, ◌+◌, ◌<◌, ◌^◌};
ghost use Rattle.ccsl_page.specs.Places.{start, behind, place_at};

/// A line and a column of a text, both from 1. A column counts bytes.
#[derive(Clone, Copy)]
pub struct Place {
    pub line: u64,
    pub column: u64,
}

impl Place {
    /// The place of a text's first byte.
    pub const START: Place = Place { line: 1, column: 1 };

    /// The place behind a byte that stands here.
    #[inline]
    pub fn behind(self, byte: u8) -> Place
        requires line { self.line + 1 < 2 ^ 64 }
        requires column { self.column + 1 < 2 ^ 64 }
        ensures { result ≡ behind self byte }
    {
        if byte == b'\n' {
            Place {
                line: self.line + 1,
                column: 1,
            }
        } else {
            Place {
                line: self.line,
                column: self.column + 1,
            }
        }
    }
}

/// The place of byte number `at` of a text, or of its end, where it has fewer.
pub fn place_of(text: &[u8], at: usize) -> Place
    ensures { result ≡ place_at text.now at }
{
    let front = &text[..at.min(text.len())];
    let mut place = Place { line: 1, column: 1 };
    for byte in front {
        place = place.behind(*byte);
    }
    place
}

// Where the line begins in which a text ends.
fn last_start(front: &[u8]) -> usize {
    let mut found = 0;
    for (i, byte) in front.iter().enumerate() {
        if *byte == b'\n' {
            found = i.saturating_add(1);
        }
    }
    found
}

// How many bytes stand in front of the first line feed.
fn first_end(rest: &[u8]) -> usize {
    rest.iter()
        .position(|byte| *byte == b'\n')
        .unwrap_or(rest.len())
}

/// The line around byte number `at` of a text, without its line feed.
pub fn line_around(text: &[u8], at: usize) -> &[u8] {
    let at = at.min(text.len());
    let start = last_start(&text[..at]).min(at);
    let rest = &text[at..];
    let end = at.saturating_add(first_end(rest)).min(text.len());
    if start <= end {
        &text[start..end]
    } else {
        rest
    }
}
