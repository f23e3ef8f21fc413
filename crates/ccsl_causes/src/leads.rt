//! How far the left clocks of precedences are ahead.

ghost use Rattle.std.specs.Prelude.{◌≡◌, ◌<◌, ◌-◌, ℕ, [], IfOk, IfSome, IfNone, length, map, nat_eq, slice_index_or};
ghost use Rattle.std.specs.List.{range_with_len};
ghost use Rattle.ccsl_base.specs.Clocks.{ticks_in};
ghost use Rattle.ccsl_causes.specs.Leading.{ahead, begun, led, is_precedence, lead_by, leads_of};

use crate::counts::Counts;
use crate::names::clock_name;
use ccsl_base::{ClockSet, Memory};
use ccsl_kernel::{Constraint, RelationKind, System};
use ccsl_page::{Page, Paint, Piece, Scale};
use std::alloc::Global;
use std::marker::Model;

/// A precedence of a left clock: its right clock, and since when the left one is ahead, where it is.
#[derive(Clone, Copy)]
pub struct Lead {
    pub right: u32,
    pub since: u64,
}

impl Lead {
    // By how much the left clock has ticked more often.
    #[inline]
    fn ahead(self, left: u32, counts: &Counts) -> u64
        ensures { result ≡ ahead counts.now left self.right }
    {
        counts.of(left).saturating_sub(counts.of(self.right))
    }

    // Its left clock ticks: where that was not ahead, the lead begins.
    #[inline]
    fn begin(&mut self, left: u32, time: u64, before: &Counts)
        ensures { self.new ≡ begun before.now left time self.old }
    {
        if self.ahead(left, before) == 0 {
            self.since = time;
        }
    }
}

/// The precedences of one left clock.
#[derive(Drop)]
struct Side {
    leads: Vec<Lead>,
}

impl Model for Side {
    ghost use Rattle.std.specs.Prelude.{List};
    ghost use Rattle.ccsl_causes.specs.declared.leads.Lead.{Lead};

    ghost Value = { List Lead };

    ghost view = { λ s. s.leads.items };
}

impl Side {
    // Whether there are none.
    fn is_empty(&self) -> bool
        ensures { result ≡ nat_eq (length self.now) 0 }
    {
        self.leads.is_empty()
    }

    // The left clock ticks.
    #[inline]
    fn begin(&mut self, left: u32, time: u64, before: &Counts)
        ensures { self.new ≡ map (begun before.now left time) self.old }
    {
        for lead in self.leads.iter_mut() {
            lead.begin(left, time, before);
        }
    }
}

/// The precedences between two clocks that are written in a system, for each left clock. Contracts see these lists.
#[derive(Drop)]
pub struct Leads {
    sides: Vec<Side>,
}

impl Model for Leads {
    ghost use Rattle.std.specs.Prelude.{List};
    ghost use Rattle.ccsl_causes.specs.declared.leads.Lead.{Lead};

    ghost Value = { List (List Lead) };

    ghost view = { λ l. l.sides.items };
}

fn is_precedence(kind: RelationKind) -> bool
    ensures { result ≡ is_precedence kind }
{
    match kind {
        RelationKind::Precedes | RelationKind::PrecedesWeakly | RelationKind::PrecedesWithin(_) =>
            true,
        RelationKind::Subclock | RelationKind::Coincides | RelationKind::Excludes => false,
    }
}

// The lead of a left clock by a constraint, before the first step. None where that is no precedence of it between
// clocks that are written in the system.
fn lead_by(system: &System, left: u32, constraint: &Constraint) -> Option<Lead>
    ensures { result ≡ lead_by system.now left constraint.now }
{
    if constraint.left == left
        && constraint.right < system.written()
        && is_precedence(constraint.kind)
    {
        Some(Lead {
            right: constraint.right,
            since: 0,
        })
    } else {
        None
    }
}

// The precedences of a left clock, before the first step.
fn side_of(alloc: Global, system: &System, left: u32) -> Result<Side, Memory>
    ensures { IfOk result (λ side. side ≡ leads_of system.now left) }
{
    let mut leads = Vec::new(alloc);
    for j in 0..system.constraints() {
        match lead_by(system, left, system.constraint(j)) {
            Some(lead) => leads.push(lead)?,
            None => {}
        }
    }
    Ok(Side { leads })
}

impl Leads {
    /// Those of a system, before the first step. None where it has no such precedence.
    pub fn new(alloc: Global, system: &System) -> Result<Option<Leads>, Memory>
        ensures leads { IfOk result (λ leads. IfSome leads (λ l.
            l ≡ map (leads_of system.now) (range_with_len 0 system.now.written))) }
        ensures none { IfOk result (λ leads. IfNone leads ((x : ℕ) → x < system.now.written →
            length (leads_of system.now x) ≡ 0)) }
    {
        let mut sides = Vec::new(alloc);
        let mut is_any = false;
        for left in 0..system.written() {
            let side = side_of(alloc, system, left)?;
            is_any = is_any || !side.is_empty();
            sides.push(side)?;
        }
        Ok(if is_any { Some(Leads { sides }) } else { None })
    }

    /// A step is made, before which the clocks had ticked so often. Only the precedences of the left clocks that tick
    /// in it are visited: there a lead begins where there was none.
    #[inline]
    pub fn hear(&mut self, step: &ClockSet, time: u64, before: &Counts)
        ensures clocks { length self.new ≡ length self.old }
        ensures leads { (x : ℕ) → x < length self.old →
            slice_index_or self.new x [] ≡ led before.now time (ticks_in x step.now) x
            (slice_index_or self.old x []) }
    {
        for clock in step.members() {
            let at = clock as usize;
            if at < self.sides.len() {
                self.sides[at].begin(clock, time, before);
            }
        }
    }
}

/// A precedence whose left clock is ahead.
#[derive(Clone, Copy)]
struct Pending {
    left: u32,
    right: u32,
    ahead: u64,
    since: u64,
}

// Those of one left clock.
fn add_pending(
    list: &mut Vec<Pending>,
    left: u32,
    side: &Side,
    counts: &Counts,
) -> Result<(), Memory> {
    for lead in &side.leads {
        let ahead = lead.ahead(left, counts);
        if ahead > 0 {
            list.push(Pending {
                left,
                right: lead.right,
                ahead,
                since: lead.since,
            })?;
        }
    }
    Ok(())
}

// All of them, in the order of the left clocks.
fn all_pending(alloc: Global, leads: &Leads, counts: &Counts) -> Result<Vec<Pending>, Memory> {
    let mut list = Vec::new(alloc);
    let mut left = 0u32;
    for side in &leads.sides {
        add_pending(&mut list, left, side, counts)?;
        left = left.saturating_add(1);
    }
    Ok(list)
}

// The longest unit in which the times are whole since which left clocks are ahead.
fn fitted(alloc: Global, list: &[Pending], scale: Scale) -> Result<Scale, Memory> {
    let mut times = Vec::new(alloc);
    for pending in list {
        times.push(pending.since)?;
    }
    Ok(scale.fitted(times.as_slice()))
}

/// Puts the precedences whose left clock is ahead, by how often the clocks have ticked, a line each.
pub fn put_pending(
    alloc: Global,
    page: &mut Page,
    system: &System,
    counts: &Counts,
    leads: &Leads,
    scale: Scale,
) -> Result<(), Memory> {
    let list = all_pending(alloc, leads, counts)?;
    let scale = fitted(alloc, list.as_slice(), scale)?;
    for pending in &list {
        let [number, blank, unit] = scale.pieces(pending.since);
        page.paint(Paint::Notice)?;
        page.put(&[Piece::Text("  pending: ")])?;
        page.paint(Paint::Plain)?;
        page.put_line(&[
            Piece::Name(clock_name(system, pending.left)),
            Piece::Text(" is "),
            Piece::Number(pending.ahead),
            Piece::Text(" ahead of "),
            Piece::Name(clock_name(system, pending.right)),
            Piece::Text(" since "),
            number,
            blank,
            unit,
        ])?;
    }
    Ok(())
}
