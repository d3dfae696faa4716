ghost use Rattle.span_model.specs.AttackLaws.{AttackGivesClosure, ClosureGivesAttack, LeaksAreClosed};
ghost use Rattle.span_model.specs.Bounds.{ClosuresStayInBounds};

/// The leak of an attack is closed.
pub fn attack_gives_closure<C>()
    ensures { AttackGivesClosure C }
{}

/// A closed set that is not empty is the leak of an attack.
pub fn closure_gives_attack<C>()
    ensures { ClosureGivesAttack C }
{}

/// The leaks of attacks are exactly the closed sets that are not empty.
pub fn leaks_are_closed<C>()
    ensures { LeaksAreClosed C }
{}

/// The closures of sets whose steps are bounded stay in the bound.
pub fn closures_stay_in_bounds<C>()
    ensures { ClosuresStayInBounds C }
{}
