//! The rows of expressions. Each is a production, and the action on the parts of its items.

use crate::class::{
    AMPERSAND, BAR, CARET, CLOSE_CURLY, CLOSE_ROUND, COMMA, EQUALS, NAMES, NUMBERS, OPEN_ROUND,
    OPEN_SQUARE, REFRESH, ROTATE_LEFT, ROTATE_RIGHT, SEMICOLON, SHIFT_LEFT, SHIFT_RIGHT, TEL,
    TILDE,
};
use crate::rule;
use ll_reader::{Item, Production, production};
use usuba_parts::Action;
use usuba_trees::{BitOp, ShiftKind};

/// expr: xors or_links
pub const EXPR: Production = production!(
    rule::EXPR,
    NAMES | NUMBERS | 1 << REFRESH | 1 << OPEN_ROUND | 1 << TILDE,
    false,
    [Item::Rule(rule::XORS), Item::Rule(rule::OR_LINKS)]
);

pub const EXPR_ACTION: Action = Action::Chain(BitOp::Or);

/// or_links: `|` xors or_links
pub const NEXT_XORS: Production = production!(
    rule::OR_LINKS,
    1 << BAR,
    false,
    [
        Item::Token(BAR),
        Item::Rule(rule::XORS),
        Item::Rule(rule::OR_LINKS)
    ]
);

pub const NEXT_XORS_ACTION: Action = Action::AddLink;

/// or_links: nothing
pub const NO_MORE_XORS: Production = production!(
    rule::OR_LINKS,
    1 << TEL | 1 << CLOSE_ROUND | 1 << CLOSE_CURLY | 1 << COMMA | 1 << SEMICOLON,
    false,
    []
);

pub const NO_MORE_XORS_ACTION: Action = Action::NoLinks;

/// xors: ands xor_links
pub const XORS: Production = production!(
    rule::XORS,
    NAMES | NUMBERS | 1 << REFRESH | 1 << OPEN_ROUND | 1 << TILDE,
    false,
    [Item::Rule(rule::ANDS), Item::Rule(rule::XOR_LINKS)]
);

pub const XORS_ACTION: Action = Action::Chain(BitOp::Xor);

/// xor_links: `^` ands xor_links
pub const NEXT_ANDS: Production = production!(
    rule::XOR_LINKS,
    1 << CARET,
    false,
    [
        Item::Token(CARET),
        Item::Rule(rule::ANDS),
        Item::Rule(rule::XOR_LINKS)
    ]
);

pub const NEXT_ANDS_ACTION: Action = Action::AddLink;

/// xor_links: nothing
pub const NO_MORE_ANDS: Production = production!(
    rule::XOR_LINKS,
    1 << TEL | 1 << CLOSE_ROUND | 1 << CLOSE_CURLY | 1 << COMMA | 1 << SEMICOLON | 1 << BAR,
    false,
    []
);

pub const NO_MORE_ANDS_ACTION: Action = Action::NoLinks;

/// ands: shifts and_links
pub const ANDS: Production = production!(
    rule::ANDS,
    NAMES | NUMBERS | 1 << REFRESH | 1 << OPEN_ROUND | 1 << TILDE,
    false,
    [Item::Rule(rule::SHIFTS), Item::Rule(rule::AND_LINKS)]
);

pub const ANDS_ACTION: Action = Action::Chain(BitOp::And);

/// and_links: `&` shifts and_links
pub const NEXT_SHIFTS: Production = production!(
    rule::AND_LINKS,
    1 << AMPERSAND,
    false,
    [
        Item::Token(AMPERSAND),
        Item::Rule(rule::SHIFTS),
        Item::Rule(rule::AND_LINKS)
    ]
);

pub const NEXT_SHIFTS_ACTION: Action = Action::AddLink;

/// and_links: nothing
pub const NO_MORE_SHIFTS: Production = production!(
    rule::AND_LINKS,
    1 << TEL
        | 1 << CLOSE_ROUND
        | 1 << CLOSE_CURLY
        | 1 << COMMA
        | 1 << SEMICOLON
        | 1 << CARET
        | 1 << BAR,
    false,
    []
);

pub const NO_MORE_SHIFTS_ACTION: Action = Action::NoLinks;

/// shifts: unary shift_links
pub const SHIFTS: Production = production!(
    rule::SHIFTS,
    NAMES | NUMBERS | 1 << REFRESH | 1 << OPEN_ROUND | 1 << TILDE,
    false,
    [Item::Rule(rule::UNARY), Item::Rule(rule::SHIFT_LINKS)]
);

pub const SHIFTS_ACTION: Action = Action::Shifts;

/// shift_links: `<<` atom shift_links
pub const LEFT_SHIFT: Production = production!(
    rule::SHIFT_LINKS,
    1 << SHIFT_LEFT,
    false,
    [
        Item::Token(SHIFT_LEFT),
        Item::Rule(rule::ATOM),
        Item::Rule(rule::SHIFT_LINKS)
    ]
);

pub const LEFT_SHIFT_ACTION: Action = Action::AddShift(ShiftKind::Left);

/// shift_links: `>>` atom shift_links
pub const RIGHT_SHIFT: Production = production!(
    rule::SHIFT_LINKS,
    1 << SHIFT_RIGHT,
    false,
    [
        Item::Token(SHIFT_RIGHT),
        Item::Rule(rule::ATOM),
        Item::Rule(rule::SHIFT_LINKS)
    ]
);

pub const RIGHT_SHIFT_ACTION: Action = Action::AddShift(ShiftKind::Right);

/// shift_links: `<<<` atom shift_links
pub const LEFT_ROTATION: Production = production!(
    rule::SHIFT_LINKS,
    1 << ROTATE_LEFT,
    false,
    [
        Item::Token(ROTATE_LEFT),
        Item::Rule(rule::ATOM),
        Item::Rule(rule::SHIFT_LINKS)
    ]
);

pub const LEFT_ROTATION_ACTION: Action = Action::AddShift(ShiftKind::RotLeft);

/// shift_links: `>>>` atom shift_links
pub const RIGHT_ROTATION: Production = production!(
    rule::SHIFT_LINKS,
    1 << ROTATE_RIGHT,
    false,
    [
        Item::Token(ROTATE_RIGHT),
        Item::Rule(rule::ATOM),
        Item::Rule(rule::SHIFT_LINKS)
    ]
);

pub const RIGHT_ROTATION_ACTION: Action = Action::AddShift(ShiftKind::RotRight);

/// shift_links: nothing
pub const NO_MORE_AMOUNTS: Production = production!(
    rule::SHIFT_LINKS,
    1 << TEL
        | 1 << CLOSE_ROUND
        | 1 << CLOSE_CURLY
        | 1 << COMMA
        | 1 << SEMICOLON
        | 1 << AMPERSAND
        | 1 << CARET
        | 1 << BAR,
    false,
    []
);

pub const NO_MORE_AMOUNTS_ACTION: Action = Action::NoShifts;

/// unary: complement
pub const COMPLEMENTED: Production = production!(
    rule::UNARY,
    1 << TILDE,
    false,
    [Item::Rule(rule::COMPLEMENT)]
);

pub const COMPLEMENTED_ACTION: Action = Action::Keep;

/// unary: primary
pub const NOT_COMPLEMENTED: Production = production!(
    rule::UNARY,
    NAMES | NUMBERS | 1 << REFRESH | 1 << OPEN_ROUND,
    false,
    [Item::Rule(rule::PRIMARY)]
);

pub const NOT_COMPLEMENTED_ACTION: Action = Action::Keep;

/// complement: `~` unary
pub const COMPLEMENT: Production = production!(
    rule::COMPLEMENT,
    1 << TILDE,
    true,
    [Item::Token(TILDE), Item::Rule(rule::UNARY)]
);

pub const COMPLEMENT_ACTION: Action = Action::Not;

/// primary: number
pub const NUMBER_EXPR: Production = production!(
    rule::PRIMARY,
    NUMBERS,
    false,
    [Item::Rule(rule::NUMBER)]
);

pub const NUMBER_EXPR_ACTION: Action = Action::NumberExpr;

/// primary: name after_name
pub const NAME_EXPR: Production = production!(
    rule::PRIMARY,
    NAMES,
    false,
    [Item::Rule(rule::NAME), Item::Rule(rule::AFTER_NAME)]
);

pub const NAME_EXPR_ACTION: Action = Action::NameExpr;

/// primary: `refresh` refresh_args
pub const REFRESH_EXPR: Production = production!(
    rule::PRIMARY,
    1 << REFRESH,
    false,
    [Item::Token(REFRESH), Item::Rule(rule::REFRESH_ARGS)]
);

pub const REFRESH_EXPR_ACTION: Action = Action::Refresh;

/// primary: expr_group
pub const TUPLE: Production = production!(
    rule::PRIMARY,
    1 << OPEN_ROUND,
    false,
    [Item::Rule(rule::EXPR_GROUP)]
);

pub const TUPLE_ACTION: Action = Action::Tuple;

/// after_name: expr_group
pub const ARGUMENTS: Production = production!(
    rule::AFTER_NAME,
    1 << OPEN_ROUND,
    false,
    [Item::Rule(rule::EXPR_GROUP)]
);

pub const ARGUMENTS_ACTION: Action = Action::Keep;

/// after_name: picks
pub const PICKS_OF_NAME: Production = production!(
    rule::AFTER_NAME,
    1 << TEL
        | 1 << CLOSE_ROUND
        | 1 << OPEN_SQUARE
        | 1 << CLOSE_CURLY
        | 1 << COMMA
        | 1 << SEMICOLON
        | 1 << EQUALS
        | 1 << AMPERSAND
        | 1 << CARET
        | 1 << BAR
        | 1 << SHIFT_LEFT
        | 1 << SHIFT_RIGHT
        | 1 << ROTATE_LEFT
        | 1 << ROTATE_RIGHT,
    false,
    [Item::Rule(rule::PICKS)]
);

pub const PICKS_OF_NAME_ACTION: Action = Action::Keep;

/// expr_group: `(` exprs `)`
pub const EXPR_GROUP: Production = production!(
    rule::EXPR_GROUP,
    1 << OPEN_ROUND,
    true,
    [
        Item::Token(OPEN_ROUND),
        Item::Rule(rule::EXPRS),
        Item::Token(CLOSE_ROUND)
    ]
);

pub const EXPR_GROUP_ACTION: Action = Action::Inner;

/// exprs: expr more_exprs
pub const EXPRS: Production = production!(
    rule::EXPRS,
    NAMES | NUMBERS | 1 << REFRESH | 1 << OPEN_ROUND | 1 << TILDE,
    false,
    [Item::Rule(rule::EXPR), Item::Rule(rule::MORE_EXPRS)]
);

pub const EXPRS_ACTION: Action = Action::AddExpr;

/// more_exprs: `,` exprs
pub const MORE_EXPRS: Production = production!(
    rule::MORE_EXPRS,
    1 << COMMA,
    false,
    [Item::Token(COMMA), Item::Rule(rule::EXPRS)]
);

pub const MORE_EXPRS_ACTION: Action = Action::Skip;

/// more_exprs: nothing
pub const NO_MORE_EXPRS: Production = production!(rule::MORE_EXPRS, 1 << CLOSE_ROUND, false, []);

pub const NO_MORE_EXPRS_ACTION: Action = Action::NoExprs;

/// refresh_args: `(` expr `,` index `)`
pub const REFRESH_ARGS: Production = production!(
    rule::REFRESH_ARGS,
    1 << OPEN_ROUND,
    true,
    [
        Item::Token(OPEN_ROUND),
        Item::Rule(rule::EXPR),
        Item::Token(COMMA),
        Item::Rule(rule::INDEX),
        Item::Token(CLOSE_ROUND)
    ]
);

pub const REFRESH_ARGS_ACTION: Action = Action::RefreshArgs;
