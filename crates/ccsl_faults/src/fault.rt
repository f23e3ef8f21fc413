//! Faults, and the earlier of two.

ghost use Rattle.std.specs.Prelude.{◌≡◌};
ghost use Rattle.ccsl_rules.specs.Faults as rules;
ghost use Rattle.ccsl_rules.specs.Faults.{least};
ghost use Rattle.ccsl_rules.specs.Elaborated.{refusal_for};
ghost use Rattle.ccsl_faults.specs.Causes.{seen_cause};

use crate::cause::Cause;
use ccsl_rules::Refusal;
use std::marker::Model;

/// A cause at a place, which counts bytes from 0 in the file's text.
#[derive(Clone, Copy)]
pub struct Fault {
    pub cause: Cause,
    pub at: usize,
}

impl Model for Fault {
    ghost use Rattle.ccsl_rules.specs.Faults as rules;
    ghost use Rattle.ccsl_faults.specs.Causes.{seen_cause, cause_seen};

    ghost Value = { rules.Fault };

    ghost view = { λ f. record { cause = seen_cause f.cause; at = f.at } };

    ghost inverse = { λ f. record { cause = cause_seen f.cause; at = f.at } };
}

impl Fault {
    /// The refusal of a file for it.
    pub fn refusal(self) -> Refusal
        ensures { result ≡ refusal_for self.cause self.at }
    {
        match self.cause {
            Cause::Duplicate => Refusal::Duplicate(self.at),
            Cause::Unknown => Refusal::Unknown(self.at),
            Cause::Later => Refusal::Later(self.at),
            Cause::WrongKind => Refusal::WrongKind(self.at),
            Cause::Unguarded => Refusal::Unguarded(self.at),
            Cause::TooTall => Refusal::TooTall(self.at),
            Cause::Arguments => Refusal::Arguments(self.at),
            Cause::BadWord => Refusal::BadWord(self.at),
        }
    }
}

fn rank(cause: Cause) -> u8
    ensures { result ≡ rules.rank (seen_cause cause) }
{
    match cause {
        Cause::Duplicate => 0,
        Cause::Unknown => 1,
        Cause::Later => 2,
        Cause::WrongKind => 3,
        Cause::Unguarded => 4,
        Cause::TooTall => 5,
        Cause::Arguments => 6,
        Cause::BadWord => 7,
    }
}

fn comes_before(f: Fault, g: Fault) -> bool
    ensures { result ≡ rules.comes_before f g }
{
    f.at < g.at || (f.at == g.at && rank(f.cause) < rank(g.cause))
}

/// The one that comes first, if there is any.
pub(crate) fn earlier(first: Option<Fault>, second: Option<Fault>) -> Option<Fault>
    ensures { result ≡ rules.earlier first second }
{
    match (first, second) {
        (None, second) => second,
        (Some(first), None) => Some(first),
        (Some(first), Some(second)) => Some(if comes_before(second, first) {
            second
        } else {
            first
        }),
    }
}

/// A fault where the test holds.
pub(crate) fn where_so(holds: bool, cause: Cause, at: usize) -> Option<Fault>
    ensures { result ≡ least (rules.where_so holds (seen_cause cause) at) }
{
    if holds {
        Some(Fault { cause, at })
    } else {
        None
    }
}
