ghost use Rattle.std.specs.Prelude.{◌≡◌, ◌∷◌, not, IfOk, OnOk};
ghost use Rattle.usuba_model.specs.Names.{is_name_among};
ghost use Rattle.usuba_phases.specs.State.Names.{names_in, AreSame};

use std::alloc::AllocError;
use std::collections::HashSet;

/// Names that are looked up.
pub type Names<'a> = HashSet<&'a str>;

/// Whether a name is among these.
pub fn is_among(names: &Names<'_>, name: &str) -> bool
    ensures { result ≡ is_name_among (names_in names.now) name.now }
{
    names.contains(name)
}

/// Adds a name, and answers whether it is new.
pub fn add<'a>(names: &mut Names<'a>, name: &'a str) -> Result<bool, AllocError>
    ensures new { IfOk result (λ added. added ≡ not (is_name_among (names_in names.old) name.now)) }
    ensures added { OnOk result (AreSame (names_in names.new) (name.now ∷ names_in names.old)) }
{
    match names.insert(name) {
        Ok(added) => Ok(added),
        Err(_) => Err(AllocError),
    }
}
