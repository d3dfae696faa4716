ghost use Rattle.usuba_model.specs.JudgingLaws.{JudgedOrFaulty};
ghost use Rattle.usuba_model.specs.OutcomeLaw.{JudgedHasOutcome};

/// Each file has a first fault or is judged.
pub fn judged_or_faulty()
    ensures { JudgedOrFaulty }
{}

/// The entry of a judged file has an outcome, over elements of any kind.
pub fn judged_has_outcome<V>()
    ensures { JudgedHasOutcome V }
{}
