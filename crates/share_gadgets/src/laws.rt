//! The laws of the masked run.
ghost use Rattle.share_gadgets.specs.RunLaw.{ValuesOfMaskedRun, OutputsAreSharings};

/// The values of a masked run's outputs are the plain run of the values of its inputs.
pub fn values_of_masked_run()
    ensures { ValuesOfMaskedRun }
{}

/// Each output of a masked run is a sharing of words of B bits.
pub fn outputs_are_sharings()
    ensures { OutputsAreSharings }
{}
