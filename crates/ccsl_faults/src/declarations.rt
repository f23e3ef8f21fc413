//! Declarations: names that their space already has, and parameters past the limit.
#![tactic(auto, using(crate::proofs::Least::the_least))]

ghost use Rattle.std.specs.Prelude.{◌≡◌, ◌≤◌, length, take, drop, map, true, flat_map};
ghost use Rattle.ccsl_base.specs.declared.limits.TheConstants.{MAX_PARAMS};
ghost use Rattle.ccsl_rules.specs.Faults as rules;
ghost use Rattle.ccsl_rules.specs.Faults.{least};
ghost use Rattle.ccsl_rules.specs.Spaces.{repeated, spots};
ghost use Rattle.ccsl_rules.specs.Blocks.{params_faults};
ghost use Rattle.ccsl_spaces.specs.Knowns.{names};

use crate::cause::Cause;
use crate::fault::{Fault, earlier, where_so};
use ccsl_ast::Param;
use ccsl_base::MAX_PARAMS;
use ccsl_spaces::Space;

/// The names of a space, from a place on, that it has before.
pub(crate) fn repeated<T: Copy>(space: &Space<T>, from: usize) -> Option<Fault>
    requires { from ≤ length space.now }
    ensures { result ≡ least
        (repeated (take from (names space.now)) (drop from (spots space.now))) }
{
    let mut worst = None;
    let declared = space.declared();
    for place in from..declared.len() {
        let found = where_so(
            space.is_repeated(place),
            Cause::Duplicate,
            declared[place].name.at,
        );
        worst = earlier(worst, found);
    }
    worst
}

fn extra_params(params: &[Param]) -> &[Param]
    ensures { result.now ≡ drop MAX_PARAMS params.now }
{
    if params.len() < MAX_PARAMS as usize {
        return &[];
    }
    &params[MAX_PARAMS as usize..]
}

/// The ninth parameter, and those after it.
pub(crate) fn params_faults(params: &[Param]) -> Option<Fault>
    ensures { result ≡ least (params_faults params.now) }
{
    let mut worst = None;
    for param in extra_params(params) {
        worst = earlier(worst, where_so(true, Cause::Arguments, param.name.at));
    }
    worst
}
