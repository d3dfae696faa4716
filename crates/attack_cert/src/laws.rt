ghost use Rattle.attack_cert.specs.DerivationLaws.{DerivationsHold, DerivedAttacksHold, RenamingKeepsDerivations};

use attack_probes::unfolding_is_attack;
use attack_text::written_is_read;
use span_select::least_selections;

/// A leak of an attack has one derivation, which is sound and in order.
pub fn derivations_hold<C>()
    ensures { DerivationsHold C }
{
    least_selections::<C>();
    unfolding_is_attack::<C>();
}

/// The attack of a derivation and a listing of its unfolding holds, and is read as it is written.
pub fn derived_attacks_hold()
    ensures { DerivedAttacksHold }
{
    unfolding_is_attack::<u32>();
    written_is_read();
}

/// The derivations of a leak stay where columns only get other names.
pub fn renaming_keeps_derivations<C, D>()
    ensures { RenamingKeepsDerivations C D }
{}
