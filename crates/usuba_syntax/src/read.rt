//! From the bytes of a file to its tree.

ghost use Rattle.std.specs.Prelude.{◌≡◌, ◌≤◌, ◌^◌, ◌<◌, ◌+◌, ◌∷◌, ◌++◌, [], ◌↔◌, ℕ, IsTrue, IfOk, IfErr, IfSome, IfNone, length, map, None, Ok, Err};
ghost use Rattle.usuba_syntax.specs.Sources as sources;
ghost use Rattle.usuba_syntax.specs.Classes as classes;
ghost use Rattle.ll_reader.specs.Answer.{IsFault};
ghost use Rattle.usuba_syntax.specs.SourceFaults.{SourceFault};
ghost use Rattle.usuba_syntax.specs.declared.read.ReadFault.{ReadFault};
ghost use Rattle.usuba_syntax.specs.declared.table.TheConstants.{PRODUCTIONS, FRAME};
ghost use Rattle.usuba_tokens.specs.declared.token.TokenKind.TheVariants as kind;
ghost use Rattle.usuba_trees.specs.declared.File.{File};

use crate::class::{BROKEN, END, class_of};
use crate::laws::one_source;
use crate::table::{FRAME, PRODUCTIONS};
use crate::tree::tree_of;
use ll_reader::{ReadError, read};
use std::alloc::{AllocError, Global};
use thiserror::Error;
use tor_edge::{List, Place};
use usuba_tokens::{Ending, Token, TokenKind, Tokens, tokens_of};
use usuba_trees::File;

/// Why bytes are no file, with the place of the token at fault: the first fault in the text. At one token a number too big comes
/// first, and wrong syntax before nesting too deep.
#[derive(Debug, Drop, Error)]
pub enum ReadFault {
    /// No file goes on with this token, or it is the end and should not be.
    #[error("syntax")]
    Syntax(Place),
    /// The 129th bracket or `~` that is open at once.
    #[error("nesting too deep")]
    TooDeep(Place),
    /// A number of 2^64 or more.
    #[error("number too big")]
    NumberTooBig(Place),
    #[error("out of memory")]
    Memory(AllocError),
}

impl From<AllocError> for ReadFault {
    ghost from_gives = { λ error fault. fault ≡ ReadFault.Memory error };

    fn from(error: AllocError) -> Self {
        ReadFault::Memory(error)
    }
}

/// Reads the one tree that the bytes of a file spell.
pub fn read_file(alloc: Global, bytes: &[u8]) -> Result<File, ReadFault>
    requires { length bytes.now ≤ 2 ^ 31 }
    ensures file { IfOk result (sources.SpellsFile bytes.now) }
    ensures fault { IfErr result (λ error. IfSome (sources.fault_of error) (sources.HasFault bytes.now)) }
    ensures only_file { (file : File) → sources.SpellsFile bytes.now file → sources.IsOrMemory result (Ok file) }
    ensures only_fault { (fault : SourceFault) → sources.HasFault bytes.now fault → sources.IsOrMemory result (Err fault) }
{
    one_source();
    let Tokens { tokens, ending } = tokens_of(alloc, bytes)?;
    let classes = classes_of(alloc, tokens.as_slice(), ending)?;
    match read(alloc, &PRODUCTIONS, FRAME, classes.as_slice()) {
        Ok(steps) => match first_too_big(tokens.as_slice()) {
            None => Ok(tree_of(alloc, steps, tokens)?),
            Some(at) => Err(too_big_at(tokens.as_slice(), ending, at)),
        },
        Err(error) => Err(first_fault(error, tokens.as_slice(), ending)),
    }
}

fn too_big_at(tokens: &[Token], ending: Ending, at: usize) -> ReadFault
    ensures { result ≡ ReadFault.NumberTooBig (sources.place_at tokens.now ending at) }
{
    ReadFault::NumberTooBig(place_at(tokens, ending, at))
}

// The first fault of tokens that the reader refuses.
fn first_fault(error: ReadError, tokens: &[Token], ending: Ending) -> ReadFault
    requires { IsFault PRODUCTIONS FRAME (map classes.class_of tokens.now ++ classes.behind ending) error }
    ensures { IfSome (sources.fault_of result) (sources.IsFirstFault tokens.now ending) }
{
    match error {
        ReadError::Memory(error) => ReadFault::Memory(error),
        ReadError::Syntax(at) => match too_big_up_to(tokens, at) {
            Some(big) => too_big_at(tokens, ending, big),
            None => ReadFault::Syntax(place_at(tokens, ending, at)),
        },
        ReadError::TooDeep(at) => match too_big_up_to(tokens, at) {
            Some(big) => too_big_at(tokens, ending, big),
            None => ReadFault::TooDeep(place_at(tokens, ending, at)),
        },
    }
}

// The classes of the tokens, and behind them that of the end.
fn classes_of(alloc: Global, tokens: &[Token], ending: Ending) -> Result<Vec<u8>, AllocError>
    ensures { IfOk result (λ found. found.items ≡ map classes.class_of tokens.now ++ classes.behind ending) }
{
    let mut classes = Vec::new(alloc);
    for token in tokens {
        classes.push(class_of(token))?;
    }
    if let Ending::Broken(_) = ending {
        classes.push(BROKEN)?;
    }
    classes.push(END)?;
    Ok(classes)
}

fn is_too_big(token: &Token) -> bool
    ensures { IsTrue result ↔ (token.now.kind ≡ kind.Number None) }
{
    matches!(&token.kind, TokenKind::Number(None))
}

fn first_too_big(tokens: &[Token]) -> Option<usize>
    ensures some { IfSome result (λ k. sources.IsNumberTooBig tokens.now k) }
    ensures first { IfSome result (λ k. (j : ℕ) → j < k → ¬ sources.IsNumberTooBig tokens.now j) }
    ensures none { IfNone result ((k : ℕ) → ¬ sources.IsNumberTooBig tokens.now k) }
{
    for (at, token) in tokens.iter().enumerate() {
        if is_too_big(token) {
            return Some(at);
        }
    }
    None
}

// The first number that is too big, up to and with the token at a number.
fn too_big_up_to(tokens: &[Token], last: usize) -> Option<usize>
    ensures some { IfSome result (λ k. sources.IsNumberTooBig tokens.now k) }
    ensures within { IfSome result (λ k. k ≤ last) }
    ensures first { IfSome result (λ k. (j : ℕ) → j < k → ¬ sources.IsNumberTooBig tokens.now j) }
    ensures none { IfNone result ((k : ℕ) → k ≤ last → ¬ sources.IsNumberTooBig tokens.now k) }
{
    match first_too_big(tokens) {
        Some(at) if at <= last => Some(at),
        _ => None,
    }
}

// The place of a token, or that of the end.
fn place_at(tokens: &[Token], ending: Ending, at: usize) -> Place
    ensures { result ≡ sources.place_at tokens.now ending at }
{
    if at < tokens.len() {
        return tokens[at].place;
    }
    match ending {
        Ending::End(place) => place,
        Ending::Broken(place) => place,
    }
}
