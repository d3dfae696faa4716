ghost use Rattle.share_trial.specs.Known.{KnownTrials};
ghost use Rattle.share_trial.specs.TrialLaw.{SharesHaveTheValue};

/// The exclusive-or of the shares of each output of a trial is its word.
pub fn shares_have_the_value()
    ensures { SharesHaveTheValue }
{}

/// Small trials, worked by hand.
pub fn known_trials()
    ensures { KnownTrials }
{}
