use tor_edge::{List, Name, Place};

/// A word that is never a name.
#[derive(Debug, Clone, Copy, PartialEq, Eq, Drop)]
pub enum Keyword {
    Node,
    Table,
    Perm,
    Returns,
    Vars,
    Let,
    Tel,
    Forall,
    Refresh,
    Inline,
    NoInline,
}

#[derive(Debug, Clone, Copy, PartialEq, Eq, Drop)]
pub enum Sign {
    OpenRound,
    CloseRound,
    OpenSquare,
    CloseSquare,
    OpenCurly,
    CloseCurly,
    Comma,
    Semicolon,
    Colon,
    Equals,
    Tilde,
    Ampersand,
    Caret,
    Bar,
    ShiftLeft,
    ShiftRight,
    RotateLeft,
    RotateRight,
    Plus,
    Minus,
    Star,
    Slash,
    Percent,
    /// The two dots of a range.
    Dots,
}

/// What an element of a type is: a word of the program's width, or one of so many bits.
#[derive(Debug, Clone, Copy, PartialEq, Eq, Drop)]
pub enum Base {
    Poly,
    Bits(u32),
}

/// A word of the form `uW`, `uWxN`, `bN` or `vN`. Where no type stands, it is a name like another.
#[derive(Debug, Drop)]
pub struct TypeWord {
    pub text: Name,
    pub base: Base,
    pub count: Option<u32>,
}

#[derive(Debug, Drop)]
pub enum TokenKind {
    Keyword(Keyword),
    Sign(Sign),
    /// The word `in`, which is a name, and stands as itself after a loop's counter.
    In(Name),
    TypeWord(TypeWord),
    /// Any other word.
    Word(Name),
    /// The value of a number, or `None` where it is 2^64 or more.
    Number(Option<u64>),
}

#[derive(Debug, Drop)]
pub struct Token {
    pub kind: TokenKind,
    pub place: Place,
}

/// How a text ends.
#[derive(Debug, Clone, Copy, PartialEq, Eq, Drop)]
pub enum Ending {
    /// All of it is read, and this place is just past its last byte.
    End(Place),
    /// The byte at this place begins no token, or it begins a comment that is never closed.
    Broken(Place),
}

#[derive(Debug, Drop)]
pub struct Tokens {
    pub tokens: List<Token>,
    pub ending: Ending,
}
