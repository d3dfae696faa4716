//! The tokens of a text.

ghost use Rattle.std.specs.Prelude.{◌≡◌, ◌≤◌, ◌<◌, ◌+◌, ◌^◌, ℕ, List, length, IfOk};
ghost use Rattle.std.specs.Str.{IsAscii};
ghost use Rattle.tor_edge.specs.declared.place.Place.{Place};
ghost use Rattle.usuba_tokens.specs.Tokens as places;
ghost use Rattle.c_tokens.specs.Heads as heads;
ghost use Rattle.c_tokens.specs.Tokens.{Spells};
ghost use Rattle.c_tokens.specs.declared.token.Ending.{Ending};
ghost use Rattle.c_tokens.specs.declared.token.Token.{Token};

use crate::head::{Form, Head, head_of};
use crate::token::{Ending, Token, TokenKind, Tokens};
use crate::word::word_kind;
use std::alloc::{AllocError, Global};
use tor_edge::{List, Place};

/// The place after some bytes.
pub fn place_after(at: Place, text: &[u8]) -> Place
    requires line { at.line + length text.now < 2 ^ 32 }
    requires column { at.column + length text.now < 2 ^ 32 }
    ensures { result ≡ places.place_after at text.now }
{
    let mut at = at;
    for b in text {
        if *b == b'\n' {
            at = Place {
                line: at.line + 1,
                column: 1,
            };
        } else {
            at.column += 1;
        }
    }
    at
}

fn kind_of(alloc: Global, form: Form, text: &[u8]) -> Result<TokenKind, AllocError>
    requires { form ≡ Form.Word → IsAscii text.now }
    ensures { IfOk result (λ kind. kind ≡ heads.kind_of form text.now) }
{
    match form {
        Form::Word => word_kind(alloc, text),
        Form::Number(value) => Ok(TokenKind::Number(value)),
        Form::Sign(sign) => Ok(TokenKind::Sign(sign)),
    }
}

/// The tokens that a text spells which begins at a place, each with its place, up to the end or to the first place
/// where none begins.
pub fn tokens_of(alloc: Global, start: Place, text: &[u8]) -> Result<Tokens, AllocError>
    requires line { start.line + length text.now ≤ 2 ^ 31 + 8 }
    requires column { start.column + length text.now ≤ 2 ^ 31 + 8 }
    ensures { IfOk result (λ found. Spells start text.now found.tokens found.ending) }
{
    let mut tokens = List::new(alloc);
    let mut rest = text;
    let mut place = start;
    loop {
        match head_of(rest) {
            Head::End => {
                let ending = Ending::End(place);
                return Ok(Tokens { tokens, ending });
            }
            Head::Broken => {
                let ending = Ending::Broken(place);
                return Ok(Tokens { tokens, ending });
            }
            Head::Blank => {
                let (blank, after) = rest.split_at(1);
                place = place_after(place, blank);
                rest = after;
            }
            Head::Found(form, n) => {
                let (text, after) = rest.split_at(n);
                let kind = kind_of(alloc, form, text)?;
                tokens.push(Token { kind, place })?;
                place = place_after(place, text);
                rest = after;
            }
        }
    }
}

/// A text spells one list of tokens, and ends in one way.
pub fn one_spelling()
    ensures { (at : Place) (text : List ℕ) (first second : List Token) (one other : Ending)
        → Spells at text first one → Spells at text second other → (first ≡ second) × (one ≡ other) }
{}

/// Every text spells some tokens, and ends in some way.
pub fn every_text_spells()
    ensures { (at : Place) (text : List ℕ) → (found : List Token) × (ending : Ending) × Spells at text found ending }
{}
