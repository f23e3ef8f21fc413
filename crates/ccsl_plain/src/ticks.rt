//! Words on lists of ticks, the first step's first.

ghost use Rattle.std.specs.Prelude.{◌≡◌, ◌<◌, ◌^◌};
ghost use Rattle.ccsl_kernel.specs.Ticks.{count, ever};
ghost use Rattle.ccsl_plain.specs.Since.{wait_of, some_waits};

/// How many ticks.
pub fn count(ticks: &[bool]) -> u64
    ensures number { result ≡ count ticks.now }
    ensures few { result < 2 ^ 63 }
{
    ticks.iter().filter(|tick| **tick).count() as u64
}

/// Whether there is a tick.
pub fn ever(ticks: &[bool]) -> bool
    ensures { result ≡ ever ticks.now }
{
    for tick in ticks {
        if *tick {
            return true;
        }
    }
    false
}

/// How the ticks of d may stand to a tick of a that waits: none after it, none at it or after it, just so many after
/// it, or fewer than so many.
#[derive(Clone, Copy)]
pub enum Since {
    NoneAfter,
    NoneFrom,
    Just(u64),
    Fewer(u64),
}

impl Since {
    /// Whether a tick of a waits, where d ticks with it or not, and so often after it.
    pub fn waits(self, d: bool, after: u64) -> bool
        ensures { result ≡ wait_of self d after }
    {
        match self {
            Since::NoneAfter => after == 0,
            Since::NoneFrom => !d && after == 0,
            Since::Just(k) => after == k,
            Since::Fewer(m) => after < m,
        }
    }
}

/// Whether some tick of a waits.
pub fn some_waits(since: Since, a: &[bool], d: &[bool]) -> bool
    ensures { result ≡ some_waits since a.now d.now }
{
    let mut after = count(d);
    for i in 0..a.len().min(d.len()) {
        if d[i] {
            after -= 1;
        }
        if a[i] && since.waits(d[i], after) {
            return true;
        }
    }
    false
}
