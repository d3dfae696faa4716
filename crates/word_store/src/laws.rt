ghost use Rattle.word_store.specs.MeaningLaw.{PlanGivesMeaning};

/// The plan of the entry of a judged file makes the plain meaning of words.
pub fn plan_gives_meaning()
    ensures { PlanGivesMeaning }
{}
