ghost use Rattle.masked_meaning.specs.MaskedCode.{MaskedCodeComputesTheCore, MaskedCodeComputesTheSource};
ghost use Rattle.masked_meaning.specs.Lanes.{LanesAreRuns, MaskedLanesComputeTheSource};

use core_refresh::{refreshed_core_size, runs_the_same};
use masked_machine::machine_gives_masked_run;
use share_gadgets::{outputs_are_sharings, values_of_masked_run};
use source_terms::meanings_agree;

/// The values of what masked code answers are the plain run of the core.
pub fn masked_code_computes_the_core()
    ensures { MaskedCodeComputesTheCore }
{
    runs_the_same();
    refreshed_core_size();
    machine_gives_masked_run();
    values_of_masked_run();
    outputs_are_sharings();
}

/// The values of what masked code answers are the plain meaning of the source.
pub fn masked_code_computes_the_source()
    ensures { MaskedCodeComputesTheSource }
{
    masked_code_computes_the_core();
    meanings_agree();
}

/// At width 1 each bit of words of any size runs by itself.
pub fn lanes_are_runs()
    ensures { LanesAreRuns }
{}

/// At width 1 each bit of what masked code answers is the plain meaning of that bit of the inputs.
pub fn masked_lanes_compute_the_source()
    ensures { MaskedLanesComputeTheSource }
{
    masked_code_computes_the_core();
    lanes_are_runs();
    meanings_agree();
}
