//! What the definitions are worth. The functions do nothing: each has laws as its contract.

ghost use Rattle.ccsl_events_top.specs.WholeDump.{HeaderIsRead, BodyIsRead};
ghost use Rattle.ccsl_events_top.specs.OneOutcome.{OneIsMade};

/// Of a file of events and a dump one thing is made.
pub fn one_is_made()
    ensures { OneIsMade }
{}

/// Within the limit, the header and the body of a dump are what all its tokens say.
pub fn whole_dump_is_read()
    ensures header { HeaderIsRead }
    ensures body { BodyIsRead }
{}
