ghost use Rattle.span_model.specs.RefreshLaws.{AttackCarriesOver, RenamingKeepsAttacks, RefreshedUnderNames};
ghost use Rattle.span_model.specs.RefreshLaws.{LeftColumnsDoNotLeak, FreshLeftsAreSecure};
ghost use Rattle.span_model.specs.RefreshLaws.{AddedColumnsDoNotLeak, AllRefreshedIsSecure, NoneRefreshedIsSame, RefreshedIsLeftOut};
ghost use Rattle.span_model.specs.RefreshLaws.{AttackStaysWithFewer, NeededStaysNeeded, RepairSetIsLeast};

/// An attack carries over to products that cover the attacked ones, which may have other numbers.
pub fn attack_carries_over<C, D>()
    ensures { AttackCarriesOver C D }
{}

/// Products keep their attacks where their columns get other names.
pub fn renaming_keeps_attacks<C, D>()
    ensures { RenamingKeepsAttacks C D }
{}

/// Refreshed products keep their attacks where their columns get names of another kind.
pub fn refreshed_under_names<C, D>()
    ensures { RefreshedUnderNames C D }
{}

/// No leak holds a column that is on left operands alone.
pub fn left_columns_do_not_leak<C>()
    ensures { LeftColumnsDoNotLeak C }
{}

/// Where left operands hold columns that are on left operands alone there is no attack.
pub fn fresh_lefts_are_secure<C>()
    ensures { FreshLeftsAreSecure C }
{}

/// No leak of refreshed products holds a column that a refresh added.
pub fn added_columns_do_not_leak<C>()
    ensures { AddedColumnsDoNotLeak C }
{}

/// With each left operand refreshed there is no attack.
pub fn all_refreshed_is_secure<C>()
    ensures { AllRefreshedIsSecure C }
{}

/// With none refreshed the attacks are those of the products.
pub fn none_refreshed_is_same<C>()
    ensures { NoneRefreshedIsSame C }
{}

/// With a set of left operands refreshed there is an attack exactly where there is one without the products of the set.
pub fn refreshed_is_left_out<C>()
    ensures { RefreshedIsLeftOut C }
{}

/// An attack with a set refreshed is one with each smaller set refreshed.
pub fn attack_stays_with_fewer<C>()
    ensures { AttackStaysWithFewer C }
{}

/// A product that can't be left out of a set can't be left out of a smaller one.
pub fn needed_stays_needed<C>()
    ensures { NeededStaysNeeded C }
{}

/// No proper subset of a repair set is enough.
pub fn repair_set_is_least<C>()
    ensures { RepairSetIsLeast C }
{}
