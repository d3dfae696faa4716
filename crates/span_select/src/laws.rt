ghost use Rattle.span_select.specs.SelectionLaws.{LeastSelections, PickedNumbers};

/// There is at most one least selection, and what a selection spans, all the groups span.
pub fn least_selections<C>()
    ensures { LeastSelections C }
{}

/// The numbers of picked groups rise, and are those of the picked groups.
pub fn picked_numbers<C>()
    ensures { PickedNumbers C }
{}
