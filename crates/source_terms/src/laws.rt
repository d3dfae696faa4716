ghost use Rattle.source_terms.specs.SourceLaws.{TermsHaveTheMeaning, CoreKeepsValues, MeaningsAgree, KnownTerms};

/// The entry of a judged file has source terms, and at words for its inputs their values are its plain meaning.
pub fn terms_have_the_meaning()
    ensures { TermsHaveTheMeaning }
{}

/// The plain run of the core of terms gives the values of the terms.
pub fn core_keeps_values()
    ensures { CoreKeepsValues }
{}

/// A judged file has a core, and the plain run of it at words for its inputs is the plain meaning of the entry.
pub fn meanings_agree()
    ensures { MeaningsAgree }
{}

/// The terms of operators on small operands, as worked by hand.
pub fn known_terms()
    ensures { KnownTerms }
{}
