ghost use Rattle.usuba_code.specs.CodeLaw.{CodeGivesValue};

/// The code of an expression adds to a stack the value of the expression, over elements of any kind.
pub fn code_gives_value<V>()
    ensures { CodeGivesValue V }
{}
