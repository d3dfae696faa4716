//! The places of names.
ghost use Rattle.std.specs.Prelude.{[], ◌∷◌};
ghost use Rattle.c_names.specs.State.Answers.{IsPassed, passed};

use crate::fault::NameFault;
use tor_edge::Place;

/// The places of the names that are still to come.
#[derive(Drop)]
pub(crate) struct Places<'p> {
    pub(crate) left: &'p [Place],
}

impl Places<'_> {
    /// Passes over the next name, which is right where it stands or not.
    pub(crate) fn pass(&mut self, is_right: bool) -> Result<(), NameFault>
        ensures { IsPassed (passed (is_right ∷ []) self.old.left.now) result self.new.left.now }
    {
        let Some((place, rest)) = self.left.split_first() else {
            return Ok(());
        };
        if !is_right {
            return Err(NameFault::BadName(*place));
        }
        self.left = rest;
        Ok(())
    }
}
