ghost use Rattle.span_model.specs.Cases.{KnownCases};

/// Attacks that are known by hand: that the definitions say of small products what they are to say.
pub fn known_cases()
    ensures { KnownCases }
{}
