//! The tokens of a text.

ghost use Rattle.std.specs.Prelude.{◌≡◌, ◌≤◌, ◌<◌, ◌+◌, ◌^◌, ◌⊎◌, ◌++◌, ◌↔◌, ℕ, List, length, take, drop, IfOk};
ghost use Rattle.std.specs.Str.{IsAscii};
ghost use Rattle.tor_edge.specs.declared.place.Place.{Place};
ghost use Rattle.usuba_tokens.specs.declared.token.Ending.{Ending};
ghost use Rattle.usuba_tokens.specs.declared.token.Token.{Token};
ghost use Rattle.usuba_tokens.specs.Gaps.{IsGap};
ghost use Rattle.usuba_tokens.specs.Heads as heads;
ghost use Rattle.usuba_tokens.specs.Longest as longest;
ghost use Rattle.usuba_tokens.specs.Tokens as tokens;
ghost use Rattle.usuba_tokens.specs.declared.head.Form.{Form};

use crate::head::{Form, Head, head_of};
use crate::number::number_value;
use crate::token::{Ending, Token, TokenKind, Tokens};
use crate::word::word_kind;
use std::alloc::{AllocError, Global};
use tor_edge::{List, Place};

fn place_after(at: Place, text: &[u8]) -> Place
    requires line { at.line + length text.now < 2 ^ 32 }
    requires column { at.column + length text.now < 2 ^ 32 }
    ensures { result ≡ tokens.place_after at text.now }
{
    let mut at = at;
    for b in text {
        if *b == b'\n' {
            at = Place {
                line: at.line + 1,
                column: 1,
            };
        } else {
            at.column += 1;
        }
    }
    at
}

fn kind_of(alloc: Global, form: Form, text: &[u8]) -> Result<TokenKind, AllocError>
    requires { form ≡ Form.Word → IsAscii text.now }
    ensures { IfOk result (λ kind. kind ≡ heads.kind_of form text.now) }
{
    match form {
        Form::Word => word_kind(alloc, text),
        Form::Number => Ok(TokenKind::Number(number_value(text))),
        Form::Sign(sign) => Ok(TokenKind::Sign(sign)),
    }
}

/// The tokens that the bytes of a file spell, each with its place, up to the end or to the first place where none begins.
pub fn tokens_of(alloc: Global, bytes: &[u8]) -> Result<Tokens, AllocError>
    requires { length bytes.now ≤ 2 ^ 31 }
    ensures { IfOk result (λ found. tokens.Spells tokens.start bytes.now found.tokens found.ending) }
{
    let mut tokens = List::new(alloc);
    let mut rest = bytes;
    let mut place = Place { line: 1, column: 1 };
    loop {
        match head_of(rest) {
            Head::End => {
                return Ok(Tokens {
                    tokens,
                    ending: Ending::End(place),
                });
            }
            Head::Broken => {
                return Ok(Tokens {
                    tokens,
                    ending: Ending::Broken(place),
                });
            }
            Head::Gap(n) => {
                let (gap, after) = rest.split_at(n);
                place = place_after(place, gap);
                rest = after;
            }
            Head::Found(form, n) => {
                let (text, after) = rest.split_at(n);
                let kind = kind_of(alloc, form, text)?;
                tokens.push(Token { kind, place })?;
                place = place_after(place, text);
                rest = after;
            }
        }
    }
}

/// A text spells one list of tokens, and ends in one way.
pub fn one_spelling()
    ensures { (at : Place) (text : List ℕ) (first second : List Token) (one other : Ending)
        → tokens.Spells at text first one → tokens.Spells at text second other
        → (first ≡ second) × (one ≡ other) }
{}

/// Every text spells some tokens, and ends in some way.
pub fn every_text_spells()
    ensures { (at : Place) (text : List ℕ)
        → (found : List Token) × (ending : Ending) × tokens.Spells at text found ending }
{}

/// The token that is found at the head of a text is the longest there, and no number ends before a letter or `_`.
pub fn tokens_are_longest()
    ensures { (text : List ℕ) (found : Form) (n : ℕ)
        → heads.head_of text ≡ Head.Found found n → longest.IsFound found n text }
{}

/// A text that begins no token opens a comment that is never closed, or begins with a number that a letter or `_` follows,
/// or no front of it is a token.
pub fn broken_texts_have_a_cause()
    ensures { (text : List ℕ) → heads.head_of text ≡ Head.Broken
        → longest.IsUnclosed text ⊎ (longest.IsSpoiled text ⊎ longest.BeginsNone text) }
{}

/// What stands between tokens is one blank or a whole comment after another, and these hold no token: where one stands
/// before a text, the tokens are those of the text.
pub fn gaps_hold_no_token()
    ensures found { (text : List ℕ) (n : ℕ) → heads.head_of text ≡ Head.Gap n → IsGap (take n text) (drop n text) }
    ensures passed { (at : Place) (gap after : List ℕ) (found : List Token) (ending : Ending) → IsGap gap after
        → tokens.Spells at (gap ++ after) found ending ↔ tokens.Spells (tokens.place_after at gap) after found ending }
{}
