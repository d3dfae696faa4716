ghost use Rattle.c_text_law.specs.TextLaw.{MaskedTextSpells};

use c_meaning::one_file;

/// The text of a masked form spells that file of the C subset and no other.
pub fn masked_text_spells()
    ensures { MaskedTextSpells }
{
    one_file();
}
