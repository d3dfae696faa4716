use tor_edge::{List, Name, Place};

/// A word with a meaning of its own, which is never a name.
#[derive(Debug, Clone, Copy, PartialEq, Eq, Drop)]
pub enum Keyword {
    Static,
    Void,
    Reg,
    /// `uint64_t`
    Word,
    Unsigned,
    For,
    /// `D`
    Shares,
    /// `UINT64_C`
    Constant,
    /// `tornado_random`
    Random,
    Masked,
    Out,
    In,
    /// `v`
    Slots,
}

#[derive(Debug, Clone, Copy, PartialEq, Eq, Drop)]
pub enum Sign {
    OpenRound,
    CloseRound,
    OpenSquare,
    CloseSquare,
    OpenCurly,
    CloseCurly,
    Comma,
    Semicolon,
    Equals,
    Less,
    Plus,
    PlusPlus,
    Minus,
    Caret,
    Ampersand,
    Bar,
    ShiftLeft,
    ShiftRight,
}

#[derive(Debug, Drop)]
pub enum TokenKind {
    Keyword(Keyword),
    Sign(Sign),
    Name(Name),
    Number(u64),
}

#[derive(Debug, Drop)]
pub struct Token {
    pub kind: TokenKind,
    pub place: Place,
}

/// How a text ends.
#[derive(Debug, Clone, Copy, PartialEq, Eq, Drop)]
pub enum Ending {
    /// All of it is read, and this place is just past its last byte.
    End(Place),
    /// The byte at this place begins no token, or digits that are no number.
    Broken(Place),
}

#[derive(Debug, Drop)]
pub struct Tokens {
    pub tokens: List<Token>,
    pub ending: Ending,
}
