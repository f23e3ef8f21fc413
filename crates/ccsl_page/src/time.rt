//! Times with their unit.

use crate::page::Piece;

/// How many units of time there are.
const UNITS: usize = 6;

/// A unit of time.
#[derive(Clone, Copy)]
pub enum TimeUnit {
    Second,
    Millisecond,
    Microsecond,
    Nanosecond,
    Picosecond,
    Femtosecond,
}

/// How long a trace's unit of time is, 1, 10 or 100 of a unit, and the unit in which times are shown, which is so many
/// thousands of thousands of that one. Without a unit, times are numbers alone.
#[derive(Clone, Copy)]
pub struct Scale {
    pub times: u64,
    pub thousands: u32,
    pub unit: Option<TimeUnit>,
}

impl TimeUnit {
    fn text(self) -> &'static str {
        match self {
            TimeUnit::Second => "s",
            TimeUnit::Millisecond => "ms",
            TimeUnit::Microsecond => "us",
            TimeUnit::Nanosecond => "ns",
            TimeUnit::Picosecond => "ps",
            TimeUnit::Femtosecond => "fs",
        }
    }

    fn named(text: &[u8]) -> Option<TimeUnit> {
        match text {
            b"s" => Some(TimeUnit::Second),
            b"ms" => Some(TimeUnit::Millisecond),
            b"us" => Some(TimeUnit::Microsecond),
            b"ns" => Some(TimeUnit::Nanosecond),
            b"ps" => Some(TimeUnit::Picosecond),
            b"fs" => Some(TimeUnit::Femtosecond),
            _ => None,
        }
    }

    // The unit that is a thousand times as long.
    fn longer(self) -> Option<TimeUnit> {
        match self {
            TimeUnit::Second => None,
            TimeUnit::Millisecond => Some(TimeUnit::Second),
            TimeUnit::Microsecond => Some(TimeUnit::Millisecond),
            TimeUnit::Nanosecond => Some(TimeUnit::Microsecond),
            TimeUnit::Picosecond => Some(TimeUnit::Nanosecond),
            TimeUnit::Femtosecond => Some(TimeUnit::Picosecond),
        }
    }
}

// The digits at a text's front, and what follows them without blanks.
fn parted(text: &[u8]) -> (u64, &[u8]) {
    match text {
        [b'1', b'0', b'0', rest @ ..] => (100, rest),
        [b'1', b'0', rest @ ..] => (10, rest),
        [b'1', rest @ ..] => (1, rest),
        _ => (1, text),
    }
}

fn without_blank(text: &[u8]) -> &[u8] {
    match text {
        [b' ', rest @ ..] => rest,
        _ => text,
    }
}

impl Scale {
    /// Of times without a unit.
    pub const BARE: Scale = Scale {
        times: 1,
        thousands: 0,
        unit: None,
    };

    /// What stands between `$timescale` and its `$end`.
    pub fn of_header(text: &[u8]) -> Scale {
        let (times, rest) = parted(text);
        match TimeUnit::named(without_blank(rest)) {
            Some(unit) => Scale {
                times,
                thousands: 0,
                unit: Some(unit),
            },
            None => Scale {
                times: 1,
                thousands: 0,
                unit: None,
            },
        }
    }

    /// A time in this scale, as a number of its unit.
    pub fn number(self, time: u64) -> u64 {
        let mut number = time.saturating_mul(self.times);
        for _ in 0..self.thousands {
            number /= 1000;
        }
        number
    }

    // The scale with the next longer unit, where each of these times is whole in it.
    fn longer(self, times: &[u64]) -> Option<Scale> {
        let unit = self.unit?.longer()?;
        if times.iter().any(|time| self.number(*time) % 1000 != 0) {
            return None;
        }
        Some(Scale {
            times: self.times,
            thousands: self.thousands.saturating_add(1),
            unit: Some(unit),
        })
    }

    /// The scale with the longest unit in which each of these times is whole. Where all are 0 it stays.
    pub fn fitted(self, times: &[u64]) -> Scale {
        let mut scale = self;
        if times.iter().all(|time| *time == 0) {
            return scale;
        }
        for _ in 0..UNITS {
            if let Some(longer) = scale.longer(times) {
                scale = longer;
            }
        }
        scale
    }

    /// The name of the unit, behind a blank, or nothing.
    pub fn word(self) -> &'static str {
        match self.unit {
            Some(unit) => unit.text(),
            None => "",
        }
    }

    // What stands between a number and its unit.
    fn blank(self) -> &'static str {
        match self.unit {
            Some(_) => " ",
            None => "",
        }
    }

    /// The pieces of a time with its unit.
    pub fn pieces<'a>(self, time: u64) -> [Piece<'a>; 3] {
        [
            Piece::Number(self.number(time)),
            Piece::Text(self.blank()),
            Piece::Text(self.word()),
        ]
    }
}
