ghost use Rattle.ready_order.specs.NumberedLaws.{NumberedFindings};

/// The findings over numbered cells are those over named cells.
pub fn numbered_findings()
    ensures { NumberedFindings }
{}
