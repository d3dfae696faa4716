//! The rows of items. Each is a production, and the action on the parts of its items.

use crate::class::{
    CLOSE_CURLY, CLOSE_ROUND, CLOSE_SQUARE, COMMA, EQUALS, FORALL, IN, NAMES, OPEN_CURLY,
    OPEN_ROUND, OPEN_SQUARE, SEMICOLON, TEL,
};
use crate::rule;
use ll_reader::{Item, Production, production};
use usuba_parts::Action;

/// items: loop after_loop
pub const LOOP_FIRST: Production = production!(
    rule::ITEMS,
    1 << FORALL,
    false,
    [Item::Rule(rule::LOOP), Item::Rule(rule::AFTER_LOOP)]
);

pub const LOOP_FIRST_ACTION: Action = Action::AddItem;

/// items: equation after_equation
pub const EQUATION_FIRST: Production = production!(
    rule::ITEMS,
    NAMES | 1 << OPEN_ROUND,
    false,
    [Item::Rule(rule::EQUATION), Item::Rule(rule::AFTER_EQUATION)]
);

pub const EQUATION_FIRST_ACTION: Action = Action::AddItem;

/// items: nothing
pub const NO_ITEMS: Production = production!(rule::ITEMS, 1 << TEL | 1 << CLOSE_CURLY, false, []);

pub const NO_ITEMS_ACTION: Action = Action::NoItems;

/// after_loop: `;` items
pub const SEMICOLON_AFTER_LOOP: Production = production!(
    rule::AFTER_LOOP,
    1 << SEMICOLON,
    false,
    [Item::Token(SEMICOLON), Item::Rule(rule::ITEMS)]
);

pub const SEMICOLON_AFTER_LOOP_ACTION: Action = Action::Skip;

/// after_loop: items
pub const NOTHING_AFTER_LOOP: Production = production!(
    rule::AFTER_LOOP,
    NAMES | 1 << TEL | 1 << FORALL | 1 << OPEN_ROUND | 1 << CLOSE_CURLY,
    false,
    [Item::Rule(rule::ITEMS)]
);

pub const NOTHING_AFTER_LOOP_ACTION: Action = Action::Keep;

/// after_equation: `;` items
pub const SEMICOLON_AFTER_EQUATION: Production = production!(
    rule::AFTER_EQUATION,
    1 << SEMICOLON,
    false,
    [Item::Token(SEMICOLON), Item::Rule(rule::ITEMS)]
);

pub const SEMICOLON_AFTER_EQUATION_ACTION: Action = Action::Skip;

/// after_equation: nothing
pub const NOTHING_AFTER_EQUATION: Production = production!(
    rule::AFTER_EQUATION,
    1 << TEL | 1 << CLOSE_CURLY,
    false,
    []
);

pub const NOTHING_AFTER_EQUATION_ACTION: Action = Action::NoItems;

/// loop: `forall` name `in` bounds body
pub const LOOP: Production = production!(
    rule::LOOP,
    1 << FORALL,
    false,
    [
        Item::Token(FORALL),
        Item::Rule(rule::NAME),
        Item::Token(IN),
        Item::Rule(rule::BOUNDS),
        Item::Rule(rule::BODY)
    ]
);

pub const LOOP_ACTION: Action = Action::Loop;

/// bounds: `[` index `,` index `]`
pub const BOUNDS: Production = production!(
    rule::BOUNDS,
    1 << OPEN_SQUARE,
    true,
    [
        Item::Token(OPEN_SQUARE),
        Item::Rule(rule::INDEX),
        Item::Token(COMMA),
        Item::Rule(rule::INDEX),
        Item::Token(CLOSE_SQUARE)
    ]
);

pub const BOUNDS_ACTION: Action = Action::Bounds;

/// body: `{` items `}`
pub const BODY: Production = production!(
    rule::BODY,
    1 << OPEN_CURLY,
    true,
    [
        Item::Token(OPEN_CURLY),
        Item::Rule(rule::ITEMS),
        Item::Token(CLOSE_CURLY)
    ]
);

pub const BODY_ACTION: Action = Action::Inner;

/// equation: left `=` expr
pub const EQUATION: Production = production!(
    rule::EQUATION,
    NAMES | 1 << OPEN_ROUND,
    false,
    [
        Item::Rule(rule::LEFT),
        Item::Token(EQUALS),
        Item::Rule(rule::EXPR)
    ]
);

pub const EQUATION_ACTION: Action = Action::Equation;

/// left: spot
pub const ONE_SPOT: Production = production!(rule::LEFT, NAMES, false, [Item::Rule(rule::SPOT)]);

pub const ONE_SPOT_ACTION: Action = Action::OneSpot;

/// left: spot_group
pub const SPOTS_IN_BRACKETS: Production = production!(
    rule::LEFT,
    1 << OPEN_ROUND,
    false,
    [Item::Rule(rule::SPOT_GROUP)]
);

pub const SPOTS_IN_BRACKETS_ACTION: Action = Action::Keep;

/// spot_group: `(` spots `)`
pub const SPOT_GROUP: Production = production!(
    rule::SPOT_GROUP,
    1 << OPEN_ROUND,
    true,
    [
        Item::Token(OPEN_ROUND),
        Item::Rule(rule::SPOTS),
        Item::Token(CLOSE_ROUND)
    ]
);

pub const SPOT_GROUP_ACTION: Action = Action::Inner;

/// spots: spot more_spots
pub const SPOTS: Production = production!(
    rule::SPOTS,
    NAMES,
    false,
    [Item::Rule(rule::SPOT), Item::Rule(rule::MORE_SPOTS)]
);

pub const SPOTS_ACTION: Action = Action::AddSpot;

/// more_spots: `,` spots
pub const MORE_SPOTS: Production = production!(
    rule::MORE_SPOTS,
    1 << COMMA,
    false,
    [Item::Token(COMMA), Item::Rule(rule::SPOTS)]
);

pub const MORE_SPOTS_ACTION: Action = Action::Skip;

/// more_spots: nothing
pub const NO_MORE_SPOTS: Production = production!(rule::MORE_SPOTS, 1 << CLOSE_ROUND, false, []);

pub const NO_MORE_SPOTS_ACTION: Action = Action::NoSpots;
