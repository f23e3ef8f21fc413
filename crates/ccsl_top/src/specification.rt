//! The specification that the words name.

ghost use Rattle.std.specs.Prelude.{IfOk, IfErr};
ghost use Rattle.ccsl_edge.specs.declared.slot.Slot.TheVariants.{Spec};
ghost use Rattle.ccsl_top.specs.Changes.{Reads};
ghost use Rattle.ccsl_top.specs.Reading.{only, IsSpecOf, IsStop};

use crate::files::read_file;
use ccsl_base::MAX_SPEC_BYTES;
use ccsl_edge::{Slot, Stop, World};
use ccsl_report::spec_too_long;
use ccsl_spec::{Specification, read};
use std::alloc::Global;

/// Reads the specification of a name.
pub(crate) fn read_specification<W: World>(
    alloc: Global,
    world: &mut W,
    name: &str,
) -> Result<Specification, Stop>
    requires { W.allows Spec name.now }
    ensures reads { IfOk result (λ _. Reads (only Spec) (W.state world.old) (W.state world.new)) }
    ensures spec { IfOk result (λ found. IsSpecOf W.told (W.state world.old).files name.now found) }
    ensures stop { IfErr result (λ stop. IsStop stop Spec (W.state world.old) (W.state world.new)) }
{
    match read_file(alloc, world, Slot::Spec, name, MAX_SPEC_BYTES)? {
        Some(text) => Ok(read(alloc, text.as_slice())?),
        None => Ok(Specification::Refused(spec_too_long(alloc)?)),
    }
}
