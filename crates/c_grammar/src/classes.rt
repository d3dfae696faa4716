//! The class of each token.

ghost use Rattle.std.specs.Prelude.{◌≡◌, ◌++◌, IfOk};
ghost use Rattle.c_grammar.specs.Classes as classes;

use crate::class;
use c_tokens::{Ending, Keyword, Sign, Token, TokenKind};
use std::alloc::{AllocError, Global};

fn class_of_keyword(keyword: Keyword) -> u8
    ensures { result ≡ classes.class_of_keyword keyword }
{
    match keyword {
        Keyword::Static => class::STATIC,
        Keyword::Void => class::VOID,
        Keyword::Reg => class::REG,
        Keyword::Word => class::WORD,
        Keyword::Unsigned => class::UNSIGNED,
        Keyword::For => class::FOR,
        Keyword::Shares => class::SHARES,
        Keyword::Constant => class::CONSTANT,
        Keyword::Random => class::RANDOM,
        Keyword::Masked => class::MASKED,
        Keyword::Out => class::OUT,
        Keyword::In => class::IN,
        Keyword::Slots => class::SLOTS,
    }
}

fn class_of_sign(sign: Sign) -> u8
    ensures { result ≡ classes.class_of_sign sign }
{
    match sign {
        Sign::OpenRound => class::OPEN_ROUND,
        Sign::CloseRound => class::CLOSE_ROUND,
        Sign::OpenSquare => class::OPEN_SQUARE,
        Sign::CloseSquare => class::CLOSE_SQUARE,
        Sign::OpenCurly => class::OPEN_CURLY,
        Sign::CloseCurly => class::CLOSE_CURLY,
        Sign::Comma => class::COMMA,
        Sign::Semicolon => class::SEMICOLON,
        Sign::Equals => class::EQUALS,
        Sign::Less => class::LESS,
        Sign::Plus => class::PLUS,
        Sign::PlusPlus => class::PLUS_PLUS,
        Sign::Minus => class::MINUS,
        Sign::Caret => class::CARET,
        Sign::Ampersand => class::AMPERSAND,
        Sign::Bar => class::BAR,
        Sign::ShiftLeft => class::SHIFT_LEFT,
        Sign::ShiftRight => class::SHIFT_RIGHT,
    }
}

fn class_of_number(n: u64) -> u8
    ensures { result ≡ classes.class_of_number n }
{
    if n == 0 {
        class::ZERO
    } else if n == 1 {
        class::ONE
    } else if n <= 32_768 {
        class::FEW_ROWS
    } else if n <= 131_072 {
        class::MANY_ROWS
    } else {
        class::PAST_ROWS
    }
}

fn class_of_name(counter: &str, name: &str) -> u8
    ensures { result ≡ classes.class_of_name counter.now name.now }
{
    if counter == name {
        class::COUNTER
    } else {
        class::NAME
    }
}

// The class of a token, where this is the name behind the last `unsigned`.
fn class_of(counter: &str, token: &Token) -> u8
    ensures { result ≡ classes.class_of counter.now token.now.kind }
{
    match &token.kind {
        TokenKind::Keyword(keyword) => class_of_keyword(*keyword),
        TokenKind::Sign(sign) => class_of_sign(*sign),
        TokenKind::Name(name) => class_of_name(counter, name.as_str()),
        TokenKind::Number(n) => class_of_number(*n),
    }
}

fn is_unsigned(token: &Token) -> bool
    ensures { result ≡ classes.is_unsigned token.now.kind }
{
    match &token.kind {
        TokenKind::Keyword(Keyword::Unsigned) => true,
        _ => false,
    }
}

// The name behind the last `unsigned`, after a token.
fn counter_after<'a>(behind_unsigned: bool, counter: &'a str, token: &'a Token) -> &'a str
    ensures { result.now ≡ classes.counter_after behind_unsigned counter.now token.now.kind }
{
    match &token.kind {
        TokenKind::Name(name) if behind_unsigned => name.as_str(),
        _ => counter,
    }
}

/// The classes of the tokens, and behind them that of the end.
pub fn classes_of(alloc: Global, tokens: &[Token], ending: Ending) -> Result<Vec<u8>, AllocError>
    ensures { IfOk result (λ found. found.items ≡ classes.classes_of tokens.now ending) }
{
    let mut classes = Vec::new(alloc);
    let mut counter = "";
    let mut behind_unsigned = false;
    for token in tokens {
        classes.push(class_of(counter, token))?;
        counter = counter_after(behind_unsigned, counter, token);
        behind_unsigned = is_unsigned(token);
    }
    if let Ending::Broken(_) = ending {
        classes.push(class::BROKEN)?;
    }
    classes.push(class::END)?;
    Ok(classes)
}
