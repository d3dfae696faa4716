ghost use Rattle.linear_view.specs.AttackLaw.{AttacksAreTheViews};
ghost use Rattle.linear_view.specs.CoreViewLaw.{CoreViewSize};
ghost use Rattle.linear_view.specs.NarrowLaw.{NarrowViewsKeepAttacks};

use crate::column::Column;
use span_model::renaming_keeps_attacks;

/// The attacks on a circuit, over its named columns, are those on its view.
pub fn attacks_are_the_views()
    ensures { AttacksAreTheViews }
{
    renaming_keeps_attacks::<Column, u32>();
    renaming_keeps_attacks::<u32, Column>();
}

/// The attacks on a circuit, over its named columns, and those on its view, are those on a narrow view of it.
pub fn narrow_views_keep_attacks()
    ensures { NarrowViewsKeepAttacks }
{
    renaming_keeps_attacks::<Column, u32>();
    renaming_keeps_attacks::<u32, Column>();
}

/// How many columns and products the view of a circuit has, and how many rows each operand.
pub fn core_view_size()
    ensures { CoreViewSize }
{}
