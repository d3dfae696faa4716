//! The classes of tokens that the grammar tells apart.

pub const STATIC: u8 = 0;

pub const VOID: u8 = 1;

pub const REG: u8 = 2;

/// `uint64_t`
pub const WORD: u8 = 3;

pub const UNSIGNED: u8 = 4;

pub const FOR: u8 = 5;

/// `D`
pub const SHARES: u8 = 6;

/// `UINT64_C`
pub const CONSTANT: u8 = 7;

/// `tornado_random`
pub const RANDOM: u8 = 8;

pub const MASKED: u8 = 9;

pub const OUT: u8 = 10;

pub const IN: u8 = 11;

/// `v`
pub const SLOTS: u8 = 12;

pub const OPEN_ROUND: u8 = 13;

pub const CLOSE_ROUND: u8 = 14;

pub const OPEN_SQUARE: u8 = 15;

pub const CLOSE_SQUARE: u8 = 16;

pub const OPEN_CURLY: u8 = 17;

pub const CLOSE_CURLY: u8 = 18;

pub const COMMA: u8 = 19;

pub const SEMICOLON: u8 = 20;

pub const EQUALS: u8 = 21;

pub const LESS: u8 = 22;

pub const PLUS: u8 = 23;

pub const PLUS_PLUS: u8 = 24;

pub const MINUS: u8 = 25;

pub const CARET: u8 = 26;

pub const AMPERSAND: u8 = 27;

pub const BAR: u8 = 28;

pub const SHIFT_LEFT: u8 = 29;

pub const SHIFT_RIGHT: u8 = 30;

/// A name other than the counter.
pub const NAME: u8 = 31;

/// The name behind the last `unsigned`.
pub const COUNTER: u8 = 32;

/// The number 0.
pub const ZERO: u8 = 33;

/// The number 1.
pub const ONE: u8 = 34;

/// A number of 2 to 32,768.
pub const FEW_ROWS: u8 = 35;

/// A number of 32,769 to 131,072.
pub const MANY_ROWS: u8 = 36;

/// A greater number.
pub const PAST_ROWS: u8 = 37;

/// What begins no token.
pub const BROKEN: u8 = 38;

pub const END: u8 = 39;
