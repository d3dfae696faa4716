//! Laws about the syntax of C files, each the contract of a function that does nothing.

ghost use Rattle.std.specs.Prelude.{◌≡◌, ◌⊎◌, ℕ, List};
ghost use Rattle.tor_edge.specs.declared.place.Place.{Place};
ghost use Rattle.c_syntax.specs.Syntax.{SpellsFile, IsSyntaxFault};
ghost use Rattle.c_tree.specs.declared.CFile.{CFile};

use c_grammar::derived_or_fault;
use c_subset::{derived_are_files, files_are_derived, one_file};
use c_tokens::{every_text_spells, one_spelling};

/// All bytes spell a file, names in scope apart, or their syntax is at fault.
pub fn file_or_fault()
    ensures { (bytes : List ℕ) → ((file : CFile) × SpellsFile bytes file) ⊎ ((place : Place) × IsSyntaxFault bytes place) }
{
    every_text_spells();
    derived_or_fault();
    derived_are_files();
}

/// Bytes spell at most one file, names in scope apart, and where they spell one their syntax is not at fault.
pub fn one_source()
    ensures file { (bytes : List ℕ) (first second : CFile) → SpellsFile bytes first → SpellsFile bytes second → first ≡ second }
    ensures apart { (bytes : List ℕ) (file : CFile) (place : Place) → SpellsFile bytes file → ¬ IsSyntaxFault bytes place }
{
    one_spelling();
    one_file();
    files_are_derived();
}

/// The syntax of bytes is at fault at one place at most.
pub fn one_place()
    ensures { (bytes : List ℕ) (first second : Place) → IsSyntaxFault bytes first → IsSyntaxFault bytes second
        → first ≡ second }
{
    one_spelling();
}
