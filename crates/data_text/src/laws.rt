ghost use Rattle.data_text.specs.Laws.{ValuesOrFault, RunOrFault, Blanks, NoNumber, FirstFault, NoDigit, LeftOver};
ghost use Rattle.data_text.specs.Laws.{SmallRun, ManyShares, FewShares};

/// A text says values or has a fault.
pub fn values_or_fault()
    ensures { ValuesOrFault }
{}

/// A text says the data of a run or has a fault.
pub fn run_or_fault()
    ensures { RunOrFault }
{}

/// What small texts say, known by hand.
pub fn known_cases()
    ensures blanks { Blanks }
    ensures no_number { NoNumber }
    ensures first_fault { FirstFault }
    ensures no_digit { NoDigit }
    ensures left_over { LeftOver }
    ensures small_run { SmallRun }
    ensures many_shares { ManyShares }
    ensures few_shares { FewShares }
{}
