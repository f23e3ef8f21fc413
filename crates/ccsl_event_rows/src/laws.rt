//! What traces of events are worth. The functions do nothing: each has laws as its contract.

ghost use Rattle.ccsl_event_rows.specs.ReadsBack.{EventsReadBack, FrontsReadBack, RowsAreTimes, TimesAreCounted};
ghost use Rattle.ccsl_event_rows.specs.Planned.{WhatIsReadMayBeWritten};
ghost use Rattle.ccsl_event_rows.specs.Made.{WhatIsMadeReadsBack};

/// What is written of a dump's body, or of its front up to a fault, reads back as the times at which the names of a
/// system's clocks happen. Where its clocks are just these names, that is all times at which something happens, and
/// there are as many as are told.
pub fn events_read_back()
    ensures whole { EventsReadBack }
    ensures front { FrontsReadBack }
    ensures times { RowsAreTimes }
    ensures count { TimesAreCounted }
{}

/// The names, the time scale and the plan that a file of events and a dump's header give are such that what is written
/// of the dump's body reads back.
pub fn what_is_read_may_be_written()
    ensures { WhatIsReadMayBeWritten }
{}

/// So the whole trace that `ccsl-events` makes of a file of events and a dump reads back as the times of the dump's
/// body at which these events happen, as many as are told.
pub fn what_is_made_reads_back()
    ensures { WhatIsMadeReadsBack }
{}
