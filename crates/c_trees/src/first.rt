//! What a choice is made by, and what a token says.

ghost use Rattle.std.specs.Prelude.{◌≡◌, drop, IfOk};
ghost use Rattle.c_trees.specs.State.Making as making;

use c_tokens::{Keyword, Sign, Token, TokenKind};
use c_tree::{CIndex, COp};
use std::alloc::{AllocError, Global};
use tor_edge::Name;

/// What the first of some tokens is, as far as a choice is made by it.
#[derive(Debug, Clone, Copy, PartialEq, Eq, Drop)]
pub enum First {
    Bracket,
    Name,
    Number,
    Constant,
    Random,
    Word,
    For,
    Reg,
    Void,
    Out,
    In,
    Slots,
    Comma,
    Close,
    Other,
}

fn first_of_keyword(keyword: Keyword) -> First
    ensures { result ≡ making.first_of_keyword keyword }
{
    match keyword {
        Keyword::Void => First::Void,
        Keyword::Reg => First::Reg,
        Keyword::Word => First::Word,
        Keyword::For => First::For,
        Keyword::Constant => First::Constant,
        Keyword::Random => First::Random,
        Keyword::Out => First::Out,
        Keyword::In => First::In,
        Keyword::Slots => First::Slots,
        _ => First::Other,
    }
}

fn first_of_sign(sign: Sign) -> First
    ensures { result ≡ making.first_of_sign sign }
{
    match sign {
        Sign::OpenRound => First::Bracket,
        Sign::CloseCurly => First::Close,
        Sign::Comma => First::Comma,
        _ => First::Other,
    }
}

pub fn first_of(text: &[Token]) -> First
    ensures { result ≡ making.first_of text.now }
{
    let [token, ..] = text else {
        return First::Other;
    };
    match &token.kind {
        TokenKind::Keyword(keyword) => first_of_keyword(*keyword),
        TokenKind::Sign(sign) => first_of_sign(*sign),
        TokenKind::Name(_) => First::Name,
        TokenKind::Number(_) => First::Number,
    }
}

/// The tokens behind so many.
pub fn skip(text: &[Token], n: usize) -> &[Token]
    ensures { result.now ≡ drop n text.now }
{
    if n <= text.len() { &text[n..] } else { &[] }
}

pub fn name_in(alloc: Global, text: &[Token]) -> Result<Name, AllocError>
    ensures { IfOk result (λ name. name ≡ making.name_in text.now) }
{
    let [token, ..] = text else {
        return Name::of(alloc, "");
    };
    match &token.kind {
        TokenKind::Name(name) => Name::of(alloc, name.as_str()),
        _ => Name::of(alloc, ""),
    }
}

pub fn number_in(text: &[Token]) -> u64
    ensures { result ≡ making.number_in text.now }
{
    let [token, ..] = text else {
        return 0;
    };
    match &token.kind {
        TokenKind::Number(n) => *n,
        _ => 0,
    }
}

fn op_of_sign(sign: Sign) -> COp
    ensures { result ≡ making.op_of_sign sign }
{
    match sign {
        Sign::Caret => COp::Xor,
        Sign::Ampersand => COp::And,
        Sign::Bar => COp::Or,
        Sign::ShiftLeft => COp::Shl,
        Sign::ShiftRight => COp::Shr,
        _ => COp::Sub,
    }
}

pub fn op_in(text: &[Token]) -> COp
    ensures { result ≡ making.op_in text.now }
{
    let [token, ..] = text else {
        return COp::Sub;
    };
    match &token.kind {
        TokenKind::Sign(sign) => op_of_sign(*sign),
        _ => COp::Sub,
    }
}

pub fn idx_in(alloc: Global, text: &[Token]) -> Result<CIndex, AllocError>
    ensures { IfOk result (λ index. index ≡ making.idx_in text.now) }
{
    let [token, ..] = text else {
        return Ok(CIndex::Number(0));
    };
    match &token.kind {
        TokenKind::Name(name) => Ok(CIndex::Counter(Name::of(alloc, name.as_str())?)),
        TokenKind::Number(n) => Ok(CIndex::Number(*n)),
        _ => Ok(CIndex::Number(0)),
    }
}
