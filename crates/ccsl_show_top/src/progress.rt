//! How far a run is, as a person is told.

ghost use Rattle.std.specs.Prelude.{◌≡◌, ◌+◌, ◌-◌, ◌^◌, ◌%◌, ◌&&◌, min, max, nat_eq, nat_lt};
ghost use Rattle.ccsl_show_top.specs.Telling.{is_time, told_at, size_before, made_with};
ghost use Rattle.ccsl_show_top.specs.Telling.{begins_step, read_in_pass, percent_of, seconds_left};

/// How many seconds stand between two lines.
const APART: u64 = 2;

/// How many steps are made before the time is looked at again.
const STEPS_A_LOOK: u64 = 256;

/// What is read of a trace, once or once more, and made of a simulation, and behind how many seconds that was told.
#[derive(Clone, Copy)]
pub struct Gauge {
    /// how many bytes the trace has, and how many were read
    pub size: u64,
    pub read: u64,
    /// how many steps were asked for, and how many were made
    pub asked: u64,
    pub made: u64,
    pub told: u64,
}

/// How much of a hundred is done, and how many seconds the rest will take at the pace so far.
#[derive(Clone, Copy)]
pub struct Share {
    pub percent: u64,
    pub left: u64,
}

// By so much of a whole that is done, at a pace of so much in so many seconds. A whole of 0 is one of 1.
fn share_of(done: u64, whole: u64, pace: u64, seconds: u64) -> Share
    ensures percent { result.percent ≡ percent_of done whole }
    ensures left { result.left ≡ seconds_left done whole pace seconds }
{
    let whole = whole.max(1);
    let done = done.min(whole);
    Share {
        percent: done.saturating_mul(100) / whole,
        left: (whole - done).saturating_mul(seconds) / pace.max(1),
    }
}

/// Whether what is written of a trace begins a step: a step is written at once, and begins with its time.
pub fn begins_step(bytes: &[u8]) -> bool
    ensures { result ≡ begins_step bytes.now }
{
    match bytes {
        [first, ..] => *first == b'#',
        [] => false,
    }
}

impl Gauge {
    /// Before anything is read or made, of a trace of so many bytes: none, where steps are asked for.
    pub fn new(bytes: u64, asked: u64) -> Gauge
        ensures { result ≡ record {
          size = size_before asked bytes;
          read = 0;
          asked = asked;
          made = 0;
          told = 0;
        } }
    {
        Gauge {
            size: if asked > 0 { 0 } else { bytes },
            read: 0,
            asked,
            made: 0,
            told: 0,
        }
    }

    /// So many bytes of the trace are read.
    pub fn hear_read(&mut self, count: usize)
        ensures { self.new
            ≡ record self.old { read = min (self.old.read + count) (2 ^ 64 - 1) } }
    {
        self.read = self.read.saturating_add(count as u64);
    }

    /// So many bytes of a trace are written, which may begin a step. It answers whether the time is to be looked at:
    /// that is so once in 256 steps.
    pub fn hear_written(&mut self, count: usize, begins_step: bool) -> bool
        ensures look { result ≡ begins_step && nat_eq (self.new.made % 256) 0 }
        ensures heard { self.new ≡ record self.old {
          size = min (self.old.size + count) (2 ^ 64 - 1);
          made = made_with begins_step self.old.made;
        } }
    {
        self.size = self.size.saturating_add(count as u64);
        if begins_step {
            self.made = self.made.saturating_add(1);
        }
        begins_step && self.made % STEPS_A_LOOK == 0
    }

    /// Whether it is to be told how far the run is: so many seconds are gone, two or more behind the last time. If so
    /// it counts as told.
    pub fn is_due(&mut self, seconds: u64) -> bool
        ensures due { result ≡ is_time self.old.told seconds }
        ensures told { self.new ≡ record self.old { told = told_at self.old.told seconds } }
    {
        let is_due = seconds.saturating_sub(self.told) >= APART;
        if is_due {
            self.told = seconds;
        }
        is_due
    }

    /// Whether the trace is read once more.
    pub fn is_again(&self) -> bool
        ensures { result ≡ nat_lt (max self.now.size 1) self.now.read }
    {
        self.size.max(1) < self.read
    }

    /// How much of the trace is read, the first time or once more.
    pub fn share_read(&self, seconds: u64) -> Share
        ensures percent { result.percent
            ≡ percent_of (read_in_pass self.now.size self.now.read) self.now.size }
        ensures left { let size = self.now.size in let read = self.now.read in
            result.left ≡ seconds_left (read_in_pass size read) size read seconds }
    {
        let before = if self.is_again() { self.size.max(1) } else { 0 };
        share_of(
            self.read.saturating_sub(before),
            self.size,
            self.read,
            seconds,
        )
    }

    /// How many of the steps are made.
    pub fn share_made(&self, seconds: u64) -> Share
        ensures percent { result.percent ≡ percent_of self.now.made self.now.asked }
        ensures left { result.left
            ≡ seconds_left self.now.made self.now.asked self.now.made seconds }
    {
        share_of(self.made, self.asked, self.made, seconds)
    }
}
