//! The rows of expressions, names and numbers. Each is a production, with its rule above it.

use crate::{class, rule};
use ll_reader::{Item, Production, production};

/// idx: number
pub const NUMBER_IDX: Production = production!(
    rule::IDX,
    1 << class::ZERO
        | 1 << class::ONE
        | 1 << class::FEW_ROWS
        | 1 << class::MANY_ROWS
        | 1 << class::PAST_ROWS,
    false,
    [Item::Rule(rule::NUMBER)]
);

/// idx: name
pub const NAME_IDX: Production = production!(
    rule::IDX,
    1 << class::NAME | 1 << class::COUNTER,
    false,
    [Item::Rule(rule::NAME)]
);

/// ex: `(` inner
pub const BRACKETS: Production = production!(
    rule::EX,
    1 << class::OPEN_ROUND,
    false,
    [Item::Token(class::OPEN_ROUND), Item::Rule(rule::INNER)]
);

/// ex: name
pub const NAME_EX: Production = production!(
    rule::EX,
    1 << class::NAME | 1 << class::COUNTER,
    false,
    [Item::Rule(rule::NAME)]
);

/// ex: `UINT64_C` `(` number `)`
pub const NUMBER_EX: Production = production!(
    rule::EX,
    1 << class::CONSTANT,
    false,
    [
        Item::Token(class::CONSTANT),
        Item::Token(class::OPEN_ROUND),
        Item::Rule(rule::NUMBER),
        Item::Token(class::CLOSE_ROUND)
    ]
);

/// ex: `tornado_random` `(` `)`
pub const RANDOM_EX: Production = production!(
    rule::EX,
    1 << class::RANDOM,
    false,
    [
        Item::Token(class::RANDOM),
        Item::Token(class::OPEN_ROUND),
        Item::Token(class::CLOSE_ROUND)
    ]
);

/// inner: `uint64_t` `)` name `[` idx `]`
pub const CELL: Production = production!(
    rule::INNER,
    1 << class::WORD,
    false,
    [
        Item::Token(class::WORD),
        Item::Token(class::CLOSE_ROUND),
        Item::Rule(rule::NAME),
        Item::Token(class::OPEN_SQUARE),
        Item::Rule(rule::IDX),
        Item::Token(class::CLOSE_SQUARE)
    ]
);

/// inner: ex op ex `)`
pub const TWO: Production = production!(
    rule::INNER,
    1 << class::CONSTANT
        | 1 << class::RANDOM
        | 1 << class::OPEN_ROUND
        | 1 << class::NAME
        | 1 << class::COUNTER,
    true,
    [
        Item::Rule(rule::EX),
        Item::Rule(rule::OP),
        Item::Rule(rule::EX),
        Item::Token(class::CLOSE_ROUND)
    ]
);

/// op: `^`
pub const XOR: Production = production!(
    rule::OP,
    1 << class::CARET,
    false,
    [Item::Token(class::CARET)]
);

/// op: `&`
pub const AND: Production = production!(
    rule::OP,
    1 << class::AMPERSAND,
    false,
    [Item::Token(class::AMPERSAND)]
);

/// op: `|`
pub const OR: Production = production!(rule::OP, 1 << class::BAR, false, [Item::Token(class::BAR)]);

/// op: `<<`
pub const SHL: Production = production!(
    rule::OP,
    1 << class::SHIFT_LEFT,
    false,
    [Item::Token(class::SHIFT_LEFT)]
);

/// op: `>>`
pub const SHR: Production = production!(
    rule::OP,
    1 << class::SHIFT_RIGHT,
    false,
    [Item::Token(class::SHIFT_RIGHT)]
);

/// op: `-`
pub const SUB: Production = production!(
    rule::OP,
    1 << class::MINUS,
    false,
    [Item::Token(class::MINUS)]
);

/// name: a name
pub const OTHER_NAME: Production = production!(
    rule::NAME,
    1 << class::NAME,
    false,
    [Item::Token(class::NAME)]
);

/// name: the name behind the last `unsigned`
pub const COUNTER_NAME: Production = production!(
    rule::NAME,
    1 << class::COUNTER,
    false,
    [Item::Token(class::COUNTER)]
);

/// number: 0
pub const ZERO_NUMBER: Production = production!(
    rule::NUMBER,
    1 << class::ZERO,
    false,
    [Item::Token(class::ZERO)]
);

/// number: 1
pub const ONE_NUMBER: Production = production!(
    rule::NUMBER,
    1 << class::ONE,
    false,
    [Item::Token(class::ONE)]
);

/// number: 2 to 32,768
pub const FEW_NUMBER: Production = production!(
    rule::NUMBER,
    1 << class::FEW_ROWS,
    false,
    [Item::Token(class::FEW_ROWS)]
);

/// number: 32,769 to 131,072
pub const MANY_NUMBER: Production = production!(
    rule::NUMBER,
    1 << class::MANY_ROWS,
    false,
    [Item::Token(class::MANY_ROWS)]
);

/// number: more
pub const PAST_NUMBER: Production = production!(
    rule::NUMBER,
    1 << class::PAST_ROWS,
    false,
    [Item::Token(class::PAST_ROWS)]
);

/// few_rows: 1
pub const ONE_ROW: Production = production!(
    rule::FEW_ROWS,
    1 << class::ONE,
    false,
    [Item::Token(class::ONE)]
);

/// few_rows: 2 to 32,768
pub const FEW_ROWS: Production = production!(
    rule::FEW_ROWS,
    1 << class::FEW_ROWS,
    false,
    [Item::Token(class::FEW_ROWS)]
);

/// many_rows: 1
pub const ONE_SLOT: Production = production!(
    rule::MANY_ROWS,
    1 << class::ONE,
    false,
    [Item::Token(class::ONE)]
);

/// many_rows: 2 to 32,768
pub const FEW_SLOTS: Production = production!(
    rule::MANY_ROWS,
    1 << class::FEW_ROWS,
    false,
    [Item::Token(class::FEW_ROWS)]
);

/// many_rows: 32,769 to 131,072
pub const MANY_SLOTS: Production = production!(
    rule::MANY_ROWS,
    1 << class::MANY_ROWS,
    false,
    [Item::Token(class::MANY_ROWS)]
);
