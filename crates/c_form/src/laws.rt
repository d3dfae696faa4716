ghost use Rattle.c_form.specs.Slots.{SlotsExist, SlotsAreUnique, SlotsAreFewest};
ghost use Rattle.c_form.specs.MaskedForm.{MaskedFormsExist, MaskedFormsAreUnique};

/// Each core has least slots.
pub fn slots_exist()
    ensures { SlotsExist }
{}

/// A core has no two lists of least slots.
pub fn slots_are_unique()
    ensures { SlotsAreUnique }
{}

/// The number of slots is one more than the greatest number of registers of equations that are live at one equation, or
/// 0 with no equations.
pub fn slots_are_fewest()
    ensures { SlotsAreFewest }
{}

/// Each core has a masked form.
pub fn masked_forms_exist()
    ensures { MaskedFormsExist }
{}

/// A core has no two masked forms for words of so many bits.
pub fn masked_forms_are_unique()
    ensures { MaskedFormsAreUnique }
{}
