ghost use Rattle.source_cores.specs.SourceCores.{SourceCoresAreCores};

use source_shapes::judged_takes_and_gives;

/// The core of a source that is spelled and judged is a core.
pub fn source_cores_are_cores()
    ensures { SourceCoresAreCores }
{
    judged_takes_and_gives();
}
