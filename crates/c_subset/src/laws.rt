//! Laws about the files of the C subset, each the contract of a function that does nothing.

ghost use Rattle.std.specs.Prelude.{◌≡◌, ℕ, List};
ghost use Rattle.ll_reader.specs.declared.grammar.Step.{Step};
ghost use Rattle.tor_edge.specs.declared.place.Place.{Place};
ghost use Rattle.c_grammar.specs.Grammar.{AreDerived};
ghost use Rattle.c_subset.specs.Files.{IsFile};
ghost use Rattle.c_tokens.specs.declared.token.Ending.TheVariants as ending;
ghost use Rattle.c_tokens.specs.declared.token.Token.{Token};
ghost use Rattle.c_tree.specs.declared.CFile.{CFile};

/// The tokens of each file are derived by the grammar, within 128 brackets.
pub fn files_are_derived()
    ensures { (bits : ℕ) (tokens : List Token) (file : CFile) (at : Place) → IsFile bits tokens file
        → (steps : List Step) × AreDerived tokens (ending.End at) steps }
{}

/// What the grammar derives within 128 brackets is a file, with a type `reg` of whatever bits.
pub fn derived_are_files()
    ensures { (bits : ℕ) (tokens : List Token) (at : Place) (steps : List Step) → AreDerived tokens (ending.End at) steps
        → (file : CFile) × IsFile bits tokens file }
{}

/// Tokens are at most one file.
pub fn one_file()
    ensures { (bits : ℕ) (tokens : List Token) (first second : CFile) → IsFile bits tokens first → IsFile bits tokens second
        → first ≡ second }
{}
