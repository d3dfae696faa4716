ghost use Rattle.generated_files.specs.GeneratedLaw.{GeneratedIsClean};

use usuba_syntax::one_source;

/// A generated source of 1 to `MAX_SIZE` lines spells a file without a fault, and the core of this file is within both
/// limits.
pub fn generated_is_clean()
    ensures { GeneratedIsClean }
{
    one_source();
}
