ghost use Rattle.std.specs.Prelude.{◌≡◌};
ghost use Rattle.usuba_model.specs.Names.{is_name_among};
ghost use Rattle.usuba_phases.specs.State.Scopes.{counters_of};

/// The counters of the loops around a place.
#[derive(Clone, Copy)]
pub enum Scope<'a> {
    Outermost,
    Inside {
        counter: &'a str,
        around: &'a Scope<'a>,
    },
}

/// Whether a name is the counter of a loop around.
pub fn is_counter(scope: &Scope<'_>, name: &str) -> bool
    ensures { result ≡ is_name_among (counters_of scope.now) name.now }
{
    match scope {
        Scope::Outermost => false,
        Scope::Inside { counter, around } => name == *counter || is_counter(around, name),
    }
}
