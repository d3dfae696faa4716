//! Laws about the grammar, each the contract of a function that does nothing.

ghost use Rattle.std.specs.Prelude.{◌≡◌, ◌⊎◌, ℕ, List};
ghost use Rattle.tor_edge.specs.declared.place.Place.{Place};
ghost use Rattle.usuba_syntax.specs.Files.{IsFile};
ghost use Rattle.usuba_syntax.specs.KnownFile.{known_text, known_file};
ghost use Rattle.usuba_syntax.specs.SourceFaults.{SourceFault};
ghost use Rattle.usuba_syntax.specs.Sources.{SpellsFile, HasFault};
ghost use Rattle.usuba_tokens.specs.Tokens.{Spells, start};
ghost use Rattle.usuba_tokens.specs.declared.token.Ending.TheVariants as ending;
ghost use Rattle.usuba_tokens.specs.declared.token.Token.{Token};
ghost use Rattle.usuba_trees.specs.declared.File.{File};

use crate::table::{FRAME, PRODUCTIONS};
use ll_reader::{steps_are_determined, text_or_fault};
use usuba_tokens::{every_text_spells, one_spelling};

/// Tokens are at most one file.
pub fn one_file()
    ensures { (tokens : List Token) (first second : File) → IsFile tokens first → IsFile tokens second → first ≡ second }
{
    steps_are_determined(&PRODUCTIONS, FRAME);
}

/// Bytes spell at most one file, have at most one first fault, and never both.
pub fn one_source()
    ensures file { (bytes : List ℕ) (first second : File) → SpellsFile bytes first → SpellsFile bytes second → first ≡ second }
    ensures fault { (bytes : List ℕ) (first second : SourceFault) → HasFault bytes first → HasFault bytes second → first ≡ second }
    ensures apart { (bytes : List ℕ) (file : File) (fault : SourceFault) → SpellsFile bytes file → ¬ HasFault bytes fault }
{
    one_spelling();
    one_file();
}

/// All bytes spell a file or have a fault.
pub fn file_or_fault()
    ensures { (bytes : List ℕ) → ((file : File) × SpellsFile bytes file) ⊎ ((fault : SourceFault) × HasFault bytes fault) }
{
    every_text_spells();
    text_or_fault(&PRODUCTIONS, FRAME);
}

/// A small text with every form of the grammar spells tokens, and these are the file whose tree is written out.
pub fn known_cases()
    ensures { (tokens : List Token) × (at : Place) × Spells start known_text tokens (ending.End at) × IsFile tokens known_file }
{}
