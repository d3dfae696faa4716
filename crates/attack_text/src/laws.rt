ghost use Rattle.attack_text.specs.NarrowTextLaw.{NarrowTextsAreWhole};

/// An attack over a narrow view of a circuit is written as the same attack over all columns of the circuit.
pub fn narrow_texts_are_whole()
    ensures { NarrowTextsAreWhole }
{}
