ghost use Rattle.source_shapes.specs.ShapeLaws.{SpelledIsShaped, JudgedTakesAndGives};

/// Each type of a file that bytes spell has a width of 1 to 64 where it has one, and sizes of at least 1. Each definition of
/// it takes and gives at least one element.
pub fn spelled_is_shaped()
    ensures { SpelledIsShaped }
{}

/// A file that is spelled and judged, with no width asked for or one of 1 to 64, has a width of 1 to 64, and its entry takes
/// and gives at least one element.
pub fn judged_takes_and_gives()
    ensures { JudgedTakesAndGives }
{}
