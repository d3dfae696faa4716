//! From the steps of a derivation to the tree that they make of the tokens.

ghost use Rattle.std.specs.Prelude.{◌≡◌, ◌<◌, ◌++◌, ◌∷◌, [], ℕ, List, IfOk, OnOk, map};
ghost use Rattle.ll_reader.specs.Derivation.{Derives, IsText};
ghost use Rattle.ll_reader.specs.declared.grammar.Item.TheVariants as due;
ghost use Rattle.usuba_syntax.specs.Classes as classes;
ghost use Rattle.usuba_syntax.specs.Files as files;
ghost use Rattle.usuba_syntax.specs.Values as values;
ghost use Rattle.usuba_syntax.specs.declared.class.TheConstants as class;
ghost use Rattle.usuba_syntax.specs.declared.table.TheConstants.{PRODUCTIONS, FRAME};
ghost use Rattle.usuba_syntax.specs.declared.rule.TheConstants as rule;
ghost use Rattle.usuba_tokens.specs.declared.token.Token.{Token};

use crate::table::ACTIONS;
use ll_reader::Step;
use std::alloc::{AllocError, Global};
use tor_edge::List;
use usuba_parts::{Mark, Numeral, Part, Parts, act};
use usuba_tokens::{Token, TokenKind};
use usuba_trees::{File, Word};

/// The file that the tokens are, from the steps that derive them and the end behind them.
pub fn tree_of(alloc: Global, steps: Vec<Step>, tokens: List<Token>) -> Result<File, AllocError>
    requires text { IsText PRODUCTIONS FRAME (map classes.class_of tokens ++ class.END ∷ []) steps.items }
    requires valued { (front behind : List Token) (t : Token) → tokens ≡ front ++ t ∷ behind → values.HasValue t }
    ensures { IfOk result (files.IsFile tokens) }
{
    let mut steps = steps;
    steps.pop();
    file_of(alloc, steps, tokens)
}

// Does the steps from the last one on.
fn file_of(alloc: Global, steps: Vec<Step>, tokens: List<Token>) -> Result<File, AllocError>
    requires derives { Derives PRODUCTIONS (due.Rule rule.FILE ∷ []) (map classes.class_of tokens) steps.items }
    requires valued { (front behind : List Token) (t : Token) → tokens ≡ front ++ t ∷ behind → values.HasValue t }
    ensures { IfOk result (files.IsFile tokens) }
{
    let mut left = steps;
    let mut before = tokens;
    let mut parts = Parts::new(alloc);
    while let Some(step) = left.pop() {
        do_step(alloc, step, &mut before, &mut parts)?;
    }
    Ok(parts.pop_file())
}

fn do_step(
    alloc: Global,
    step: Step,
    tokens: &mut List<Token>,
    parts: &mut Parts,
) -> Result<(), AllocError>
    requires { values.IsReady step tokens.old parts.old }
    ensures { OnOk result (values.IsDone step tokens.old parts.old tokens.new parts.new) }
{
    match step {
        Step::Take => take(tokens, parts),
        Step::Choose(k) => act(alloc, ACTIONS[k as usize], parts),
    }
}

fn take(tokens: &mut List<Token>, parts: &mut Parts) -> Result<(), AllocError>
    requires { values.IsReady Step.Take tokens.old parts.old }
    ensures { OnOk result (values.IsDone Step.Take tokens.old parts.old tokens.new parts.new) }
{
    match tokens.pop() {
        Some(token) => parts.push(part_of(token)),
        None => Ok(()),
    }
}

// What a token leaves in the tree.
fn part_of(token: Token) -> Part
    requires { values.HasValue token }
    ensures { result ≡ values.part_of token }
{
    let Token { kind, place } = token;
    match kind {
        TokenKind::Keyword(_) => Part::Mark(Mark { place }),
        TokenKind::Sign(_) => Part::Mark(Mark { place }),
        TokenKind::In(text) => Part::Word(Word { text, place }),
        TokenKind::Word(text) => Part::Word(Word { text, place }),
        TokenKind::TypeWord(word) => Part::TypeWord(word, place),
        TokenKind::Number(Some(value)) => Part::Number(Numeral { place, value }),
        TokenKind::Number(None) => unreachable!(),
    }
}
