ghost use Rattle.term_store.specs.CoreLaw.{PlanCoreIsTheSources};

/// The core of what the entry of a judged file makes by its plan is the core of the source.
pub fn plan_core_is_the_sources()
    ensures { PlanCoreIsTheSources }
{}
