ghost use Rattle.attack_probes.specs.UnfoldingLaws.{UnfoldingIsAttack};

/// The unfolding of a sound derivation is an attack with its leak.
pub fn unfolding_is_attack<C>()
    ensures { UnfoldingIsAttack C }
{}
