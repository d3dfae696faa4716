//! The rows of statements. Each is a production, with its rule above it.

use crate::{class, rule};
use ll_reader::{Item, Production, production};

/// stmts: stmt stmts
pub const NEXT_STMT: Production = production!(
    rule::STMTS,
    1 << class::WORD | 1 << class::FOR | 1 << class::NAME | 1 << class::COUNTER,
    false,
    [Item::Rule(rule::STMT), Item::Rule(rule::STMTS)]
);

/// stmts: nothing
pub const NO_MORE_STMTS: Production = production!(rule::STMTS, 1 << class::CLOSE_CURLY, false, []);

/// stmt: assign
pub const ASSIGN: Production = production!(
    rule::STMT,
    1 << class::NAME | 1 << class::COUNTER,
    false,
    [Item::Rule(rule::ASSIGN)]
);

/// stmt: let
pub const LET: Production = production!(
    rule::STMT,
    1 << class::WORD,
    false,
    [Item::Rule(rule::DECLARE)]
);

/// stmt: head `{` stmts_in_loop `}`
pub const LOOP: Production = production!(
    rule::STMT,
    1 << class::FOR,
    false,
    [
        Item::Rule(rule::HEAD),
        Item::Token(class::OPEN_CURLY),
        Item::Rule(rule::STMTS_IN_LOOP),
        Item::Token(class::CLOSE_CURLY)
    ]
);

/// stmts_in_loop: stmt_in_loop stmts_in_loop
pub const NEXT_STMT_IN_LOOP: Production = production!(
    rule::STMTS_IN_LOOP,
    1 << class::WORD | 1 << class::FOR | 1 << class::NAME | 1 << class::COUNTER,
    false,
    [
        Item::Rule(rule::STMT_IN_LOOP),
        Item::Rule(rule::STMTS_IN_LOOP)
    ]
);

/// stmts_in_loop: nothing
pub const NO_MORE_STMTS_IN_LOOP: Production = production!(
    rule::STMTS_IN_LOOP,
    1 << class::CLOSE_CURLY,
    false,
    []
);

/// stmt_in_loop: assign
pub const ASSIGN_IN_LOOP: Production = production!(
    rule::STMT_IN_LOOP,
    1 << class::NAME | 1 << class::COUNTER,
    false,
    [Item::Rule(rule::ASSIGN)]
);

/// stmt_in_loop: let
pub const LET_IN_LOOP: Production = production!(
    rule::STMT_IN_LOOP,
    1 << class::WORD,
    false,
    [Item::Rule(rule::DECLARE)]
);

/// stmt_in_loop: head `{` stmts_in_two_loops `}`
pub const LOOP_IN_LOOP: Production = production!(
    rule::STMT_IN_LOOP,
    1 << class::FOR,
    false,
    [
        Item::Rule(rule::HEAD),
        Item::Token(class::OPEN_CURLY),
        Item::Rule(rule::STMTS_IN_TWO_LOOPS),
        Item::Token(class::CLOSE_CURLY)
    ]
);

/// stmts_in_two_loops: stmt_in_two_loops stmts_in_two_loops
pub const NEXT_STMT_IN_TWO_LOOPS: Production = production!(
    rule::STMTS_IN_TWO_LOOPS,
    1 << class::WORD | 1 << class::NAME | 1 << class::COUNTER,
    false,
    [
        Item::Rule(rule::STMT_IN_TWO_LOOPS),
        Item::Rule(rule::STMTS_IN_TWO_LOOPS)
    ]
);

/// stmts_in_two_loops: nothing
pub const NO_MORE_STMTS_IN_TWO_LOOPS: Production = production!(
    rule::STMTS_IN_TWO_LOOPS,
    1 << class::CLOSE_CURLY,
    false,
    []
);

/// stmt_in_two_loops: assign
pub const ASSIGN_IN_TWO_LOOPS: Production = production!(
    rule::STMT_IN_TWO_LOOPS,
    1 << class::NAME | 1 << class::COUNTER,
    false,
    [Item::Rule(rule::ASSIGN)]
);

/// stmt_in_two_loops: let
pub const LET_IN_TWO_LOOPS: Production = production!(
    rule::STMT_IN_TWO_LOOPS,
    1 << class::WORD,
    false,
    [Item::Rule(rule::DECLARE)]
);

/// assign: name `[` idx `]` `=` `(` `reg` `)` ex `;`
pub const ASSIGNMENT: Production = production!(
    rule::ASSIGN,
    1 << class::NAME | 1 << class::COUNTER,
    false,
    [
        Item::Rule(rule::NAME),
        Item::Token(class::OPEN_SQUARE),
        Item::Rule(rule::IDX),
        Item::Token(class::CLOSE_SQUARE),
        Item::Token(class::EQUALS),
        Item::Token(class::OPEN_ROUND),
        Item::Token(class::REG),
        Item::Token(class::CLOSE_ROUND),
        Item::Rule(rule::EX),
        Item::Token(class::SEMICOLON)
    ]
);

/// declare: `uint64_t` name `=` ex `;`
pub const DECLARATION: Production = production!(
    rule::DECLARE,
    1 << class::WORD,
    false,
    [
        Item::Token(class::WORD),
        Item::Rule(rule::NAME),
        Item::Token(class::EQUALS),
        Item::Rule(rule::EX),
        Item::Token(class::SEMICOLON)
    ]
);

/// head: `for` `(` `unsigned` name `=` low `;` steps
pub const HEAD: Production = production!(
    rule::HEAD,
    1 << class::FOR,
    false,
    [
        Item::Token(class::FOR),
        Item::Token(class::OPEN_ROUND),
        Item::Token(class::UNSIGNED),
        Item::Rule(rule::NAME),
        Item::Token(class::EQUALS),
        Item::Rule(rule::LOW),
        Item::Token(class::SEMICOLON),
        Item::Rule(rule::STEPS)
    ]
);

/// steps: counter `<` `D` `;` counter `++` `)`, where counter is the name behind the last `unsigned`
pub const STEPS: Production = production!(
    rule::STEPS,
    1 << class::COUNTER,
    false,
    [
        Item::Token(class::COUNTER),
        Item::Token(class::LESS),
        Item::Token(class::SHARES),
        Item::Token(class::SEMICOLON),
        Item::Token(class::COUNTER),
        Item::Token(class::PLUS_PLUS),
        Item::Token(class::CLOSE_ROUND)
    ]
);

/// low: number
pub const NUMBER_LOW: Production = production!(
    rule::LOW,
    1 << class::ZERO
        | 1 << class::ONE
        | 1 << class::FEW_ROWS
        | 1 << class::MANY_ROWS
        | 1 << class::PAST_ROWS,
    false,
    [Item::Rule(rule::NUMBER)]
);

/// low: name `+` `1`
pub const AFTER_LOW: Production = production!(
    rule::LOW,
    1 << class::NAME | 1 << class::COUNTER,
    false,
    [
        Item::Rule(rule::NAME),
        Item::Token(class::PLUS),
        Item::Token(class::ONE)
    ]
);
