//! From the tokens of a file to their derivation.

ghost use Rattle.std.specs.Prelude.{◌≡◌, ◌⊎◌, ℕ, List, IfOk, IfErr};
ghost use Rattle.ll_reader.specs.Answer.{IsFault};
ghost use Rattle.ll_reader.specs.declared.grammar.Step.{Step};
ghost use Rattle.c_grammar.specs.Classes.{classes_of};
ghost use Rattle.c_grammar.specs.Grammar as grammar;
ghost use Rattle.c_grammar.specs.declared.read.GrammarFault.TheVariants.{Memory};
ghost use Rattle.c_grammar.specs.declared.table.TheConstants.{PRODUCTIONS, FRAME};
ghost use Rattle.c_tokens.specs.declared.token.Ending.{Ending};
ghost use Rattle.c_tokens.specs.declared.token.Token.{Token};

use crate::classes::classes_of;
use crate::table::{FRAME, PRODUCTIONS};
use c_tokens::{Ending, Token};
use ll_reader::{ReadError, Step, read, text_or_fault};
use std::alloc::{AllocError, Global};
use thiserror::Error;
use tor_edge::Place;

/// Why tokens are no text of the grammar.
#[derive(Debug, Drop, Error)]
pub enum GrammarFault {
    /// The first token that cannot continue, or the end.
    #[error("syntax")]
    Syntax(Place),
    #[error("out of memory")]
    Memory(AllocError),
}

impl From<AllocError> for GrammarFault {
    ghost from_gives = { λ error fault. fault ≡ Memory error };

    fn from(error: AllocError) -> Self {
        GrammarFault::Memory(error)
    }
}

/// The derivation of the tokens of a text by the grammar of the C subset.
pub fn steps_of(alloc: Global, tokens: &[Token], ending: Ending) -> Result<Vec<Step>, GrammarFault>
    ensures derived { IfOk result (λ steps. grammar.AreDerived tokens.now ending steps.items) }
    ensures fault { IfErr result (grammar.IsGrammarFault tokens.now ending) }
{
    let classes = classes_of(alloc, tokens, ending)?;
    match read(alloc, &PRODUCTIONS, FRAME, classes.as_slice()) {
        Ok(steps) => Ok(steps),
        Err(error) => Err(fault_of(error, tokens, ending)),
    }
}

fn fault_of(error: ReadError, tokens: &[Token], ending: Ending) -> GrammarFault
    requires { IsFault PRODUCTIONS FRAME (classes_of tokens.now ending) error }
    ensures { grammar.IsGrammarFault tokens.now ending result }
{
    match error {
        ReadError::Syntax(at) => GrammarFault::Syntax(place_at(tokens, ending, at)),
        ReadError::TooDeep(at) => GrammarFault::Syntax(place_at(tokens, ending, at)),
        ReadError::Memory(error) => GrammarFault::Memory(error),
    }
}

// The place of a token, or that of the end.
fn place_at(tokens: &[Token], ending: Ending, at: usize) -> Place
    ensures { result ≡ grammar.place_at tokens.now ending at }
{
    if at < tokens.len() {
        return tokens[at].place;
    }
    match ending {
        Ending::End(place) => place,
        Ending::Broken(place) => place,
    }
}

/// All tokens are derived by the grammar, or stop at one that cannot continue.
pub fn derived_or_fault()
    ensures { (tokens : List Token) (end : Ending)
        → ((steps : List Step) × grammar.AreDerived tokens end steps) ⊎ ((at : ℕ) × grammar.IsStop tokens end at) }
{
    text_or_fault(&PRODUCTIONS, FRAME);
}
