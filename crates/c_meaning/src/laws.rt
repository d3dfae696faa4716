//! Laws about the files that bytes spell, each the contract of a function that does nothing.
ghost use Rattle.std.specs.Prelude.{◌≡◌, ◌⊎◌, ℕ, List};
ghost use Rattle.tor_edge.specs.declared.place.Place.{Place};
ghost use Rattle.c_meaning.specs.CSubset.{Spells, IsBadName};
ghost use Rattle.c_syntax.specs.Syntax.{IsSyntaxFault};
ghost use Rattle.c_tree.specs.declared.CFile.{CFile};

use c_name_places::bad_or_right;
use c_syntax::{file_or_fault as source_or_fault, one_source};

/// All bytes spell a file, or their syntax or a name is at fault.
pub fn file_or_fault()
    ensures { (bytes : List ℕ) → ((file : CFile) × Spells bytes file)
        ⊎ ((place : Place) × (IsSyntaxFault bytes place ⊎ IsBadName bytes place)) }
{
    source_or_fault();
    bad_or_right();
}

/// Bytes spell at most one file, and where they spell one nothing is at fault.
pub fn one_file()
    ensures file { (bytes : List ℕ) (first second : CFile) → Spells bytes first → Spells bytes second → first ≡ second }
    ensures syntax { (bytes : List ℕ) (file : CFile) (place : Place) → Spells bytes file → ¬ IsSyntaxFault bytes place }
    ensures names { (bytes : List ℕ) (file : CFile) (place : Place) → Spells bytes file → ¬ IsBadName bytes place }
{
    one_source();
    bad_or_right();
}
