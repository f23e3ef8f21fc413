//! What simulated runs are worth. Each function does nothing; its contract is the law.

ghost use Rattle.ccsl_kernel.specs.Syntax.{System};
ghost use Rattle.ccsl_kernel.specs.Accepted.{IsAccepted};
ghost use Rattle.ccsl_policy.specs.declared.policies.Policy.{Policy};
ghost use Rattle.ccsl_simulate.specs.Laws.{SimulationIsOne, SimulationsRun, FewerStepsAreAFront, EarlyEndsAreDeadlocks};
ghost use Rattle.ccsl_simulate.specs.Ends.{MinIsMinimal, MaxIsMaximal, DeadlocksHaveCertificates};

use ccsl_items::laws::formulas_read_named;
use ccsl_refute::laws::unsolved_have_certificates;

/// There is one simulation of a policy, a seed and a number of steps: each step is that of the best admissible set, and
/// it ends early only where no set is admissible.
pub fn simulation_is_one()
    ensures { (K : System) (policy : Policy) → SimulationIsOne K policy }
{}

/// A simulation is a run of sets of named clocks.
pub fn simulations_run()
    ensures { (K : System) (policy : Policy) → IsAccepted K → SimulationsRun K policy }
{}

/// A simulation with fewer steps is a front of one with more.
pub fn fewer_steps_are_a_front()
    ensures { (K : System) (policy : Policy) → FewerStepsAreAFront K policy }
{}

/// A simulation that ends early is a deadlock.
pub fn early_ends_are_deadlocks()
    ensures { (K : System) (policy : Policy) → EarlyEndsAreDeadlocks K policy }
{}

/// Under `min` no set that is admissible after the steps before a step is a proper subset of its declared part.
pub fn min_is_minimal()
    ensures { (K : System) → IsAccepted K → MinIsMinimal K }
{}

/// Under `max` no set that is admissible after the steps before a step is a proper superset of its declared part.
pub fn max_is_maximal()
    ensures { (K : System) → IsAccepted K → MaxIsMaximal K }
{}

/// Behind a simulation that ends early there are valid lines that end in the empty clause.
pub fn deadlocks_have_certificates()
    ensures { (K : System) → IsAccepted K → DeadlocksHaveCertificates K }
{
    unsolved_have_certificates();
    formulas_read_named();
}
