//! The classes of tokens that the grammar tells apart.

ghost use Rattle.std.specs.Prelude.{◌≡◌, ◌<◌};
ghost use Rattle.usuba_syntax.specs.Classes as classes;

use usuba_tokens::{Keyword, Sign, Token, TokenKind};

pub const NODE: u8 = 0;

pub const TABLE: u8 = 1;

pub const PERM: u8 = 2;

pub const RETURNS: u8 = 3;

pub const VARS: u8 = 4;

pub const LET: u8 = 5;

pub const TEL: u8 = 6;

pub const FORALL: u8 = 7;

pub const REFRESH: u8 = 8;

pub const INLINE: u8 = 9;

pub const NO_INLINE: u8 = 10;

pub const OPEN_ROUND: u8 = 11;

pub const CLOSE_ROUND: u8 = 12;

pub const OPEN_SQUARE: u8 = 13;

pub const CLOSE_SQUARE: u8 = 14;

pub const OPEN_CURLY: u8 = 15;

pub const CLOSE_CURLY: u8 = 16;

pub const COMMA: u8 = 17;

pub const SEMICOLON: u8 = 18;

pub const COLON: u8 = 19;

pub const EQUALS: u8 = 20;

pub const TILDE: u8 = 21;

pub const AMPERSAND: u8 = 22;

pub const CARET: u8 = 23;

pub const BAR: u8 = 24;

pub const SHIFT_LEFT: u8 = 25;

pub const SHIFT_RIGHT: u8 = 26;

pub const ROTATE_LEFT: u8 = 27;

pub const ROTATE_RIGHT: u8 = 28;

pub const PLUS: u8 = 29;

pub const MINUS: u8 = 30;

pub const STAR: u8 = 31;

pub const SLASH: u8 = 32;

pub const PERCENT: u8 = 33;

pub const DOTS: u8 = 34;

pub const IN: u8 = 35;

pub const TYPE_WORD: u8 = 36;

pub const WORD: u8 = 37;

pub const ZERO: u8 = 38;

pub const POSITIVE: u8 = 39;

pub const TOO_BIG: u8 = 40;

/// What begins no token. It stands in no production.
pub const BROKEN: u8 = 41;

/// The end of a file.
pub const END: u8 = 42;

/// The set of the classes of a name.
pub const NAMES: u64 = 1 << IN | 1 << TYPE_WORD | 1 << WORD;

/// The set of the classes of a number.
pub const NUMBERS: u64 = 1 << ZERO | 1 << POSITIVE | 1 << TOO_BIG;

fn class_of_keyword(keyword: Keyword) -> u8
    ensures { result ≡ classes.class_of_keyword keyword }
{
    match keyword {
        Keyword::Node => NODE,
        Keyword::Table => TABLE,
        Keyword::Perm => PERM,
        Keyword::Returns => RETURNS,
        Keyword::Vars => VARS,
        Keyword::Let => LET,
        Keyword::Tel => TEL,
        Keyword::Forall => FORALL,
        Keyword::Refresh => REFRESH,
        Keyword::Inline => INLINE,
        Keyword::NoInline => NO_INLINE,
    }
}

fn class_of_sign(sign: Sign) -> u8
    ensures { result ≡ classes.class_of_sign sign }
{
    match sign {
        Sign::OpenRound => OPEN_ROUND,
        Sign::CloseRound => CLOSE_ROUND,
        Sign::OpenSquare => OPEN_SQUARE,
        Sign::CloseSquare => CLOSE_SQUARE,
        Sign::OpenCurly => OPEN_CURLY,
        Sign::CloseCurly => CLOSE_CURLY,
        Sign::Comma => COMMA,
        Sign::Semicolon => SEMICOLON,
        Sign::Colon => COLON,
        Sign::Equals => EQUALS,
        Sign::Tilde => TILDE,
        Sign::Ampersand => AMPERSAND,
        Sign::Caret => CARET,
        Sign::Bar => BAR,
        Sign::ShiftLeft => SHIFT_LEFT,
        Sign::ShiftRight => SHIFT_RIGHT,
        Sign::RotateLeft => ROTATE_LEFT,
        Sign::RotateRight => ROTATE_RIGHT,
        Sign::Plus => PLUS,
        Sign::Minus => MINUS,
        Sign::Star => STAR,
        Sign::Slash => SLASH,
        Sign::Percent => PERCENT,
        Sign::Dots => DOTS,
    }
}

/// The class of a token.
pub fn class_of(token: &Token) -> u8
    ensures { result ≡ classes.class_of token.now }
{
    match &token.kind {
        TokenKind::Keyword(keyword) => class_of_keyword(*keyword),
        TokenKind::Sign(sign) => class_of_sign(*sign),
        TokenKind::In(_) => IN,
        TokenKind::TypeWord(_) => TYPE_WORD,
        TokenKind::Word(_) => WORD,
        TokenKind::Number(None) => TOO_BIG,
        TokenKind::Number(Some(0)) => ZERO,
        TokenKind::Number(Some(_)) => POSITIVE,
    }
}
