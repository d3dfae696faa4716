ghost use Rattle.std.specs.Prelude.{◌≡◌, ◌<◌, ◌↔◌, ℕ, List, All};
ghost use Rattle.std.specs.List.Sorted.{IsStrictlyIncreasing};
ghost use Rattle.attack_model.specs.Derivations.{AreUses};

use crate::attack::MAX_PROBES;

/// The value of the limit.
pub fn limits()
    ensures { MAX_PROBES ≡ 100000 }
{}

/// Numbers are uses exactly where they rise and are below the bound.
pub fn uses_rise()
    ensures { (bound : ℕ) (uses : List ℕ)
        → AreUses bound uses ↔ (IsStrictlyIncreasing uses × All (λ k. k < bound) uses) }
{}
