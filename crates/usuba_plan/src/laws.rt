ghost use Rattle.usuba_plan.specs.PlanLaw.{PlanGivesOutcome, PlansFit};

/// The plan of the entry of a judged file gives what the entry makes, over elements of any kind.
pub fn plan_gives_outcome<V>()
    ensures { PlanGivesOutcome V }
{}

/// The plans of a judged file fit, so that they can be run at its width.
pub fn plans_fit()
    ensures { PlansFit }
{}
