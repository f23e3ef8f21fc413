//! The command `certify`.

ghost use Rattle.std.specs.Prelude.{IfOk, IfErr};
ghost use Rattle.ccsl_edge.specs.declared.slot.Slot.TheVariants.{Trace, Cert};
ghost use Rattle.ccsl_top.specs.Certifying.{HasItem, IsReplyOn, CertifyAnswers, IsBothStop};

use crate::reply::{Reply, Status};
use ccsl_base::HashKeys;
use ccsl_certify::{CertVerdict, CertifyFault};
use ccsl_edge::{Slot, Stop, World};
use ccsl_kernel::System;
use ccsl_refute::laws::first_bad_line_is_first;
use ccsl_report::{
    cert_no_line, cert_no_run, cert_refused, cert_too_long, cert_valid, trace_refused,
};
use ccsl_vcd::LIMITS;
use std::alloc::Global;

// The reply on what checking a certificate has come to.
fn reply_on(
    alloc: Global,
    certified: Result<CertVerdict, CertifyFault>,
    system: &System,
) -> Result<Reply, Stop>
    requires item { IfOk certified (HasItem system.now) }
    ensures { IsReplyOn system.now certified result }
{
    let (status, line) = match certified {
        Ok(CertVerdict::Yes(steps)) => (Status::Done, cert_valid(alloc, steps)?),
        Ok(CertVerdict::NotRun(broken)) => (
            Status::No,
            cert_no_run(alloc, broken.step, broken.time, broken.item, system)?,
        ),
        Ok(CertVerdict::BadLine(number)) => (Status::No, cert_no_line(alloc, number)?),
        Err(CertifyFault::Refused(fault)) => {
            (Status::FileRefused, trace_refused(alloc, &fault, system)?)
        }
        Err(CertifyFault::Cert(fault)) => (Status::FileRefused, cert_refused(alloc, &fault)?),
        Err(CertifyFault::CertTooLong) => (Status::FileRefused, cert_too_long(alloc)?),
        Err(CertifyFault::Fault) => return Err(Stop::Fault),
        Err(CertifyFault::Memory) => return Err(Stop::Memory),
    };
    Ok(Reply { status, line })
}

/// Checks the certificate of a name behind the trace of a name, against a system.
pub(crate) fn certify<W: World>(
    alloc: Global,
    keys: HashKeys,
    world: &mut W,
    system: &System,
    trace: &str,
    cert: &str,
) -> Result<Reply, Stop>
    requires trace { W.allows Trace trace.now }
    requires cert { W.allows Cert cert.now }
    ensures answers { IfOk result (λ reply.
        CertifyAnswers W.told system.now trace.now cert.now reply
        (W.state world.old) (W.state world.new)) }
    ensures stop { IfErr result (λ stop. IsBothStop stop (W.state world.old) (W.state world.new)) }
{
    world.open_in(Slot::Trace, trace)?;
    world.open_in(Slot::Cert, cert)?;
    first_bad_line_is_first();
    let certified = ccsl_certify::certify(alloc, keys, world, system, &LIMITS);
    reply_on(alloc, certified, system)
}
