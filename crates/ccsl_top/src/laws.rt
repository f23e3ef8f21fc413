//! What is true of the program's outcomes. These functions do nothing: each has a law as its contract. Beside the law
//! on all outcomes stand those on what is simulated: that a written trace reads back, that it is judged to be a run,
//! and that a trial never ends early.

ghost use Rattle.ccsl_kernel.specs.Accepted.{IsAccepted};
ghost use Rattle.ccsl_kernel.specs.Syntax.{System};
ghost use Rattle.ccsl_top.specs.OneOutcome.{OutcomesAreOne};
ghost use Rattle.ccsl_top.specs.Laws.{ExplanationsCertify, SimulationsCertify, CertifiedRunsEnd, OutcomesExist};

use ccsl_certify::laws::answered_yes_is_deadlock;
pub use ccsl_chain::laws::simulated_chains_are_full;
use ccsl_explain::laws::{cores_are_one, explanations_exist, least_sets_are_one};
use ccsl_items::laws::formulas_read_named;
use ccsl_kernel::System;
use ccsl_kernel::laws::names_stand_in_certificates;
use ccsl_periodic::laws::{
    canonical_words_are_one, canonical_words_exist, plain_lengths_are_one, relations_are_decided,
    words_on_words_exist,
};
use ccsl_refute::laws::{
    first_bad_line_is_first, valid_lines_name_clocks, written_lines_read_back,
};
pub use ccsl_roundtrip::laws::simulated_traces_are_runs;
use ccsl_simulate::laws::{deadlocks_have_certificates, simulation_is_one};
use ccsl_spec::laws::{specifications_are_one, specifications_exist, systems_are_accepted};
pub use ccsl_vcd_write::laws::read_back;
use ccsl_words::laws::word_is_computed;

/// Words and files have at most one outcome, but for the lines of a certificate.
pub fn outcomes_are_one()
    ensures { OutcomesAreOne }
{
    specifications_are_one();
    canonical_words_are_one();
    plain_lengths_are_one();
    cores_are_one();
    least_sets_are_one();
}

/// A certificate that `explain` writes is one that `certify` accepts behind the same trace, where it is not too long.
pub fn explanations_certify(system: &System)
    ensures { ExplanationsCertify system.now }
{
    system.names().are_distinct();
    names_stand_in_certificates();
    valid_lines_name_clocks();
    written_lines_read_back();
    first_bad_line_is_first();
}

/// All words, files and standard input have an outcome.
pub fn outcomes_exist()
    ensures { OutcomesExist }
{
    specifications_exist();
    systems_are_accepted();
    canonical_words_exist();
    relations_are_decided();
    words_on_words_exist();
    word_is_computed();
    simulation_is_one();
    deadlocks_have_certificates();
    formulas_read_named();
    explanations_exist();
}

/// A certificate that `simulate` writes is one that `certify` accepts behind the trace that it writes, where it is not
/// too long.
pub fn simulations_certify(system: &System)
    ensures { SimulationsCertify system.now }
{
    system.names().are_distinct();
    names_stand_in_certificates();
    valid_lines_name_clocks();
    written_lines_read_back();
    first_bad_line_is_first();
    simulated_traces_are_runs(system);
}

/// Where `certify` answers with status 0, the trace is a run of the steps that it reports, and no set is admissible
/// after it.
pub fn certified_runs_end()
    ensures { (K : System) → IsAccepted K → CertifiedRunsEnd K }
{
    first_bad_line_is_first();
    answered_yes_is_deadlock();
}
