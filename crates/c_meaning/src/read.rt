ghost use Rattle.std.specs.Prelude.{◌≡◌, ◌≤◌, ◌^◌, length, IfOk, IfErr};
ghost use Rattle.tor_edge.specs.declared.place.Place.{Place};
ghost use Rattle.c_meaning.specs.CSubset.{Spells, IsFault};
ghost use Rattle.c_meaning.specs.declared.read.CFault.TheVariants.{Memory};
ghost use Rattle.c_subset.specs.Files.{IsFile};
ghost use Rattle.c_syntax.specs.Syntax.{AreSpelled};
ghost use Rattle.c_tokens.specs.declared.token.Ending.TheVariants as ending;
ghost use Rattle.c_tree.specs.declared.CFile.{CFile};

use crate::places::places_of;
use c_name_places::bad_or_right;
use c_names::{NameFault, check_names};
use c_syntax::{SyntaxFault, read_tokens};
use c_tokens::Token;
use c_tree::CFile;
use c_trees::tree_of;
use std::alloc::{AllocError, Global};
use thiserror::Error;
use tor_edge::Place;

/// Why bytes are no file of the C subset.
#[derive(Debug, Drop, Error)]
pub enum CFault {
    /// The bytes are outside the grammar: the first token that cannot continue, or the end.
    #[error("syntax")]
    Syntax(Place),
    /// The bytes are inside it, and this is the first name that is not right where it stands.
    #[error("bad name")]
    BadName(Place),
    #[error("out of memory")]
    Memory(AllocError),
}

impl From<AllocError> for CFault {
    ghost from_gives = { λ error fault. fault ≡ Memory error };

    fn from(error: AllocError) -> CFault {
        CFault::Memory(error)
    }
}

/// Reads a file of the C subset.
pub fn read_c(alloc: Global, bytes: &[u8]) -> Result<CFile, CFault>
    requires { length bytes.now ≤ 2 ^ 31 }
    ensures file { IfOk result (Spells bytes.now) }
    ensures fault { IfErr result (IsFault bytes.now) }
{
    match read_tokens(alloc, bytes) {
        Ok(found) => file_of(alloc, bytes, found.bits, found.tokens.as_slice()),
        Err(SyntaxFault::Syntax(place)) => Err(CFault::Syntax(place)),
        Err(SyntaxFault::Memory(error)) => Err(CFault::Memory(error)),
    }
}

// The file that these tokens are.
fn file_of(alloc: Global, bytes: &[u8], bits: u32, tokens: &[Token]) -> Result<CFile, CFault>
    requires { (end : Place) × (file : CFile) × AreSpelled bytes.now bits tokens.now (ending.End end)
        × IsFile bits tokens.now file }
    ensures file { IfOk result (Spells bytes.now) }
    ensures fault { IfErr result (IsFault bytes.now) }
{
    bad_or_right();
    let _bytes = bytes;
    let file = tree_of(alloc, bits, tokens)?;
    let places = places_of(alloc, tokens)?;
    match check_names(alloc, &file, places.as_slice()) {
        Ok(()) => Ok(file),
        Err(NameFault::BadName(place)) => Err(CFault::BadName(place)),
        Err(NameFault::Memory(error)) => Err(CFault::Memory(error)),
    }
}
