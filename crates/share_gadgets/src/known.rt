//! Small cases of the definitions.
ghost use Rattle.share_gadgets.specs.Known.{KnownCases};

/// Sharings on two and three shares, worked by hand.
pub fn known_cases()
    ensures { KnownCases }
{}
