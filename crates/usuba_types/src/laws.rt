ghost use Rattle.usuba_types.specs.SizeLaws.{NumberedSizes};

/// The size of a node by the numbers of the definitions that it calls is the size by their names.
pub fn numbered_sizes()
    ensures { NumberedSizes }
{}
