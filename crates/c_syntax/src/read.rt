//! From the bytes of a C file to its tokens.

ghost use Rattle.std.specs.Prelude.{◌≡◌, ◌≤◌, ◌^◌, length, IfOk, IfErr};
ghost use Rattle.tor_edge.specs.declared.place.Place.{Place};
ghost use Rattle.c_subset.specs.Files.{IsFile};
ghost use Rattle.c_syntax.specs.Syntax.{AreSpelled, IsFault};
ghost use Rattle.c_syntax.specs.declared.read.SyntaxFault.TheVariants.{Syntax, Memory};
ghost use Rattle.c_tokens.specs.Openings.{opening_of};
ghost use Rattle.c_tokens.specs.declared.opening.Opening.TheVariants.{Lines};
ghost use Rattle.c_tokens.specs.declared.token.Ending.TheVariants as ending;
ghost use Rattle.c_tree.specs.declared.CFile.{CFile};

use c_grammar::{GrammarFault, steps_of};
use c_subset::derived_are_files;
use c_tokens::{Opening, Token, Tokens, opening_of, place_after, tokens_of};
use std::alloc::{AllocError, Global};
use thiserror::Error;
use tor_edge::{List, Place};

/// The tokens of a file behind its first six lines, and the bits of its type `reg`.
#[derive(Debug, Drop)]
pub struct Spelled {
    pub bits: u32,
    pub tokens: List<Token>,
}

/// Why bytes are no file of the C subset, names in scope apart.
#[derive(Debug, Drop, Error)]
pub enum SyntaxFault {
    /// The first wrong byte of the first six lines, the first token that cannot continue, or the end.
    #[error("syntax")]
    Syntax(Place),
    #[error("out of memory")]
    Memory(AllocError),
}

impl From<AllocError> for SyntaxFault {
    ghost from_gives = { λ error fault. fault ≡ Memory error };

    fn from(error: AllocError) -> Self {
        SyntaxFault::Memory(error)
    }
}

/// The tokens of the file that bytes spell, names in scope apart.
pub fn read_tokens(alloc: Global, bytes: &[u8]) -> Result<Spelled, SyntaxFault>
    requires { length bytes.now ≤ 2 ^ 31 }
    ensures file { IfOk result (λ found. (end : Place) × (file : CFile)
        × AreSpelled bytes.now found.bits found.tokens (ending.End end) × IsFile found.bits found.tokens file) }
    ensures fault { IfErr result (IsFault bytes.now) }
{
    match opening_of(bytes) {
        Opening::Wrong(n) => Err(SyntaxFault::Syntax(place_after(
            Place { line: 1, column: 1 },
            &bytes[..n],
        ))),
        Opening::Lines { bits, length } => behind_lines(alloc, bytes, bits, length),
    }
}

// The same where the six lines are of so many bytes, with a type of so many bits.
fn behind_lines(alloc: Global, bytes: &[u8], bits: u32, n: usize) -> Result<Spelled, SyntaxFault>
    requires few { length bytes.now ≤ 2 ^ 31 }
    requires within { n ≤ length bytes.now }
    requires lines { opening_of bytes.now ≡ Lines bits n }
    ensures file { IfOk result (λ found. (end : Place) × (file : CFile)
        × AreSpelled bytes.now found.bits found.tokens (ending.End end) × IsFile found.bits found.tokens file) }
    ensures fault { IfErr result (IsFault bytes.now) }
{
    derived_are_files();
    let start = Place { line: 7, column: 1 };
    let Tokens { tokens, ending } = tokens_of(alloc, start, &bytes[n..])?;
    match steps_of(alloc, tokens.as_slice(), ending) {
        Ok(_) => Ok(Spelled { bits, tokens }),
        Err(GrammarFault::Syntax(place)) => Err(SyntaxFault::Syntax(place)),
        Err(GrammarFault::Memory(error)) => Err(SyntaxFault::Memory(error)),
    }
}
