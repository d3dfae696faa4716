//! The rows of indexes, picks, spots, names and numbers. Each is a production, and the action on the parts of its items.

use crate::class::{
    AMPERSAND, BAR, CARET, CLOSE_CURLY, CLOSE_ROUND, CLOSE_SQUARE, COMMA, DOTS, EQUALS, IN, MINUS,
    NAMES, NUMBERS, OPEN_ROUND, OPEN_SQUARE, PERCENT, PLUS, POSITIVE, ROTATE_LEFT, ROTATE_RIGHT,
    SEMICOLON, SHIFT_LEFT, SHIFT_RIGHT, SLASH, STAR, TEL, TOO_BIG, TYPE_WORD, WORD, ZERO,
};
use crate::rule;
use ll_reader::{Item, Production, production};
use usuba_parts::Action;
use usuba_trees::IndexOp;

/// spot: name picks
pub const SPOT: Production = production!(
    rule::SPOT,
    NAMES,
    false,
    [Item::Rule(rule::NAME), Item::Rule(rule::PICKS)]
);

pub const SPOT_ACTION: Action = Action::Spot;

/// picks: pick picks
pub const NEXT_PICK: Production = production!(
    rule::PICKS,
    1 << OPEN_SQUARE,
    false,
    [Item::Rule(rule::PICK), Item::Rule(rule::PICKS)]
);

pub const NEXT_PICK_ACTION: Action = Action::AddPick;

/// picks: nothing
pub const NO_MORE_PICKS: Production = production!(
    rule::PICKS,
    1 << TEL
        | 1 << CLOSE_ROUND
        | 1 << CLOSE_CURLY
        | 1 << COMMA
        | 1 << SEMICOLON
        | 1 << EQUALS
        | 1 << AMPERSAND
        | 1 << CARET
        | 1 << BAR
        | 1 << SHIFT_LEFT
        | 1 << SHIFT_RIGHT
        | 1 << ROTATE_LEFT
        | 1 << ROTATE_RIGHT,
    false,
    []
);

pub const NO_MORE_PICKS_ACTION: Action = Action::NoPicks;

/// pick: `[` index high `]`
pub const PICK: Production = production!(
    rule::PICK,
    1 << OPEN_SQUARE,
    true,
    [
        Item::Token(OPEN_SQUARE),
        Item::Rule(rule::INDEX),
        Item::Rule(rule::HIGH),
        Item::Token(CLOSE_SQUARE)
    ]
);

pub const PICK_ACTION: Action = Action::Pick;

/// high: `..` index
pub const HIGH: Production = production!(
    rule::HIGH,
    1 << DOTS,
    false,
    [Item::Token(DOTS), Item::Rule(rule::INDEX)]
);

pub const HIGH_ACTION: Action = Action::High;

/// high: nothing
pub const NO_HIGH: Production = production!(rule::HIGH, 1 << CLOSE_SQUARE, false, []);

pub const NO_HIGH_ACTION: Action = Action::NoHigh;

/// index: product sum_links
pub const INDEX: Production = production!(
    rule::INDEX,
    NAMES | NUMBERS | 1 << OPEN_ROUND,
    false,
    [Item::Rule(rule::PRODUCT), Item::Rule(rule::SUM_LINKS)]
);

pub const INDEX_ACTION: Action = Action::IndexChain;

/// sum_links: `+` product sum_links
pub const SUM: Production = production!(
    rule::SUM_LINKS,
    1 << PLUS,
    false,
    [
        Item::Token(PLUS),
        Item::Rule(rule::PRODUCT),
        Item::Rule(rule::SUM_LINKS)
    ]
);

pub const SUM_ACTION: Action = Action::AddIndexLink(IndexOp::Add);

/// sum_links: `-` product sum_links
pub const DIFFERENCE: Production = production!(
    rule::SUM_LINKS,
    1 << MINUS,
    false,
    [
        Item::Token(MINUS),
        Item::Rule(rule::PRODUCT),
        Item::Rule(rule::SUM_LINKS)
    ]
);

pub const DIFFERENCE_ACTION: Action = Action::AddIndexLink(IndexOp::Sub);

/// sum_links: nothing
pub const NO_MORE_PRODUCTS: Production = production!(
    rule::SUM_LINKS,
    1 << CLOSE_ROUND | 1 << CLOSE_SQUARE | 1 << COMMA | 1 << DOTS,
    false,
    []
);

pub const NO_MORE_PRODUCTS_ACTION: Action = Action::NoIndexLinks;

/// product: atom product_links
pub const PRODUCT: Production = production!(
    rule::PRODUCT,
    NAMES | NUMBERS | 1 << OPEN_ROUND,
    false,
    [Item::Rule(rule::ATOM), Item::Rule(rule::PRODUCT_LINKS)]
);

pub const PRODUCT_ACTION: Action = Action::IndexChain;

/// product_links: `*` atom product_links
pub const TIMES: Production = production!(
    rule::PRODUCT_LINKS,
    1 << STAR,
    false,
    [
        Item::Token(STAR),
        Item::Rule(rule::ATOM),
        Item::Rule(rule::PRODUCT_LINKS)
    ]
);

pub const TIMES_ACTION: Action = Action::AddIndexLink(IndexOp::Mul);

/// product_links: `/` atom product_links
pub const OVER: Production = production!(
    rule::PRODUCT_LINKS,
    1 << SLASH,
    false,
    [
        Item::Token(SLASH),
        Item::Rule(rule::ATOM),
        Item::Rule(rule::PRODUCT_LINKS)
    ]
);

pub const OVER_ACTION: Action = Action::AddIndexLink(IndexOp::Div);

/// product_links: `%` atom product_links
pub const REMAINDER: Production = production!(
    rule::PRODUCT_LINKS,
    1 << PERCENT,
    false,
    [
        Item::Token(PERCENT),
        Item::Rule(rule::ATOM),
        Item::Rule(rule::PRODUCT_LINKS)
    ]
);

pub const REMAINDER_ACTION: Action = Action::AddIndexLink(IndexOp::Rem);

/// product_links: nothing
pub const NO_MORE_ATOMS: Production = production!(
    rule::PRODUCT_LINKS,
    1 << CLOSE_ROUND | 1 << CLOSE_SQUARE | 1 << COMMA | 1 << PLUS | 1 << MINUS | 1 << DOTS,
    false,
    []
);

pub const NO_MORE_ATOMS_ACTION: Action = Action::NoIndexLinks;

/// atom: number
pub const NUMBER_ATOM: Production = production!(
    rule::ATOM,
    NUMBERS,
    false,
    [Item::Rule(rule::NUMBER)]
);

pub const NUMBER_ATOM_ACTION: Action = Action::IndexNumber;

/// atom: name
pub const COUNTER_ATOM: Production = production!(
    rule::ATOM,
    NAMES,
    false,
    [Item::Rule(rule::NAME)]
);

pub const COUNTER_ATOM_ACTION: Action = Action::Counter;

/// atom: index_group
pub const ATOM_IN_BRACKETS: Production = production!(
    rule::ATOM,
    1 << OPEN_ROUND,
    false,
    [Item::Rule(rule::INDEX_GROUP)]
);

pub const ATOM_IN_BRACKETS_ACTION: Action = Action::Keep;

/// index_group: `(` index `)`
pub const INDEX_GROUP: Production = production!(
    rule::INDEX_GROUP,
    1 << OPEN_ROUND,
    true,
    [
        Item::Token(OPEN_ROUND),
        Item::Rule(rule::INDEX),
        Item::Token(CLOSE_ROUND)
    ]
);

pub const INDEX_GROUP_ACTION: Action = Action::Inner;

/// name: WORD
pub const WORD_NAME: Production = production!(rule::NAME, 1 << WORD, false, [Item::Token(WORD)]);

pub const WORD_NAME_ACTION: Action = Action::Keep;

/// name: TYPEWORD
pub const TYPE_WORD_NAME: Production = production!(
    rule::NAME,
    1 << TYPE_WORD,
    false,
    [Item::Token(TYPE_WORD)]
);

pub const TYPE_WORD_NAME_ACTION: Action = Action::NameOfTypeWord;

/// name: `in`
pub const IN_NAME: Production = production!(rule::NAME, 1 << IN, false, [Item::Token(IN)]);

pub const IN_NAME_ACTION: Action = Action::Keep;

/// number: ZERO
pub const ZERO_NUMBER: Production = production!(
    rule::NUMBER,
    1 << ZERO,
    false,
    [Item::Token(ZERO)]
);

pub const ZERO_NUMBER_ACTION: Action = Action::Keep;

/// number: POSITIVE
pub const POSITIVE_NUMBER: Production = production!(
    rule::NUMBER,
    1 << POSITIVE,
    false,
    [Item::Token(POSITIVE)]
);

pub const POSITIVE_NUMBER_ACTION: Action = Action::Keep;

/// number: TOO_BIG
pub const BIG_NUMBER: Production = production!(
    rule::NUMBER,
    1 << TOO_BIG,
    false,
    [Item::Token(TOO_BIG)]
);

pub const BIG_NUMBER_ACTION: Action = Action::Keep;

/// positive_number: POSITIVE
pub const POSITIVE_DIM: Production = production!(
    rule::POSITIVE_NUMBER,
    1 << POSITIVE,
    false,
    [Item::Token(POSITIVE)]
);

pub const POSITIVE_DIM_ACTION: Action = Action::Keep;

/// positive_number: TOO_BIG
pub const BIG_DIM: Production = production!(
    rule::POSITIVE_NUMBER,
    1 << TOO_BIG,
    false,
    [Item::Token(TOO_BIG)]
);

pub const BIG_DIM_ACTION: Action = Action::Keep;
