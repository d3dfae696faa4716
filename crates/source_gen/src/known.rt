ghost use Rattle.source_gen.specs.Known.{KnownSources};

/// Small sources, worked by hand.
pub fn known_cases()
    ensures { KnownSources }
{}
