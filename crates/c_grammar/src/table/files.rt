//! The rows of files, gadgets, calls and their parts. Each is a production, with its rule above it.

use crate::{class, rule};
use ll_reader::{Item, Production, production};

/// file: gadgets masked
pub const FILE: Production = production!(
    rule::FILE,
    1 << class::STATIC | 1 << class::VOID,
    false,
    [Item::Rule(rule::GADGETS), Item::Rule(rule::MASKED)]
);

/// gadgets: gadget gadgets
pub const NEXT_GADGET: Production = production!(
    rule::GADGETS,
    1 << class::STATIC,
    false,
    [Item::Rule(rule::GADGET), Item::Rule(rule::GADGETS)]
);

/// gadgets: nothing
pub const NO_MORE_GADGETS: Production = production!(rule::GADGETS, 1 << class::VOID, false, []);

/// gadget: `static void` name `(` param params `)` `{` stmts `}`
pub const GADGET: Production = production!(
    rule::GADGET,
    1 << class::STATIC,
    false,
    [
        Item::Token(class::STATIC),
        Item::Token(class::VOID),
        Item::Rule(rule::NAME),
        Item::Token(class::OPEN_ROUND),
        Item::Rule(rule::PARAM),
        Item::Rule(rule::PARAMS),
        Item::Token(class::CLOSE_ROUND),
        Item::Token(class::OPEN_CURLY),
        Item::Rule(rule::STMTS),
        Item::Token(class::CLOSE_CURLY)
    ]
);

/// params: `,` param params
pub const NEXT_PARAM: Production = production!(
    rule::PARAMS,
    1 << class::COMMA,
    false,
    [
        Item::Token(class::COMMA),
        Item::Rule(rule::PARAM),
        Item::Rule(rule::PARAMS)
    ]
);

/// params: nothing
pub const NO_MORE_PARAMS: Production = production!(
    rule::PARAMS,
    1 << class::CLOSE_ROUND,
    false,
    []
);

/// param: `reg` name `[` `D` `]`
pub const ARRAY_PARAM: Production = production!(
    rule::PARAM,
    1 << class::REG,
    false,
    [
        Item::Token(class::REG),
        Item::Rule(rule::NAME),
        Item::Token(class::OPEN_SQUARE),
        Item::Token(class::SHARES),
        Item::Token(class::CLOSE_SQUARE)
    ]
);

/// param: `uint64_t` name
pub const WORD_PARAM: Production = production!(
    rule::PARAM,
    1 << class::WORD,
    false,
    [Item::Token(class::WORD), Item::Rule(rule::NAME)]
);

/// masked: `void masked` `(` `reg out` rows `,` `reg in` rows `)` body
pub const MASKED: Production = production!(
    rule::MASKED,
    1 << class::VOID,
    false,
    [
        Item::Token(class::VOID),
        Item::Token(class::MASKED),
        Item::Token(class::OPEN_ROUND),
        Item::Token(class::REG),
        Item::Token(class::OUT),
        Item::Rule(rule::ROWS),
        Item::Token(class::COMMA),
        Item::Token(class::REG),
        Item::Token(class::IN),
        Item::Rule(rule::ROWS),
        Item::Token(class::CLOSE_ROUND),
        Item::Rule(rule::BODY)
    ]
);

/// rows: `[` few_rows `]` `[` `D` `]`
pub const ROWS: Production = production!(
    rule::ROWS,
    1 << class::OPEN_SQUARE,
    false,
    [
        Item::Token(class::OPEN_SQUARE),
        Item::Rule(rule::FEW_ROWS),
        Item::Token(class::CLOSE_SQUARE),
        Item::Token(class::OPEN_SQUARE),
        Item::Token(class::SHARES),
        Item::Token(class::CLOSE_SQUARE)
    ]
);

/// body: `{` slots calls `}`
pub const BODY: Production = production!(
    rule::BODY,
    1 << class::OPEN_CURLY,
    false,
    [
        Item::Token(class::OPEN_CURLY),
        Item::Rule(rule::SLOTS),
        Item::Rule(rule::CALLS),
        Item::Token(class::CLOSE_CURLY)
    ]
);

/// slots: `reg v` `[` many_rows `]` `[` `D` `]` `;`
pub const SLOTS: Production = production!(
    rule::SLOTS,
    1 << class::REG,
    false,
    [
        Item::Token(class::REG),
        Item::Token(class::SLOTS),
        Item::Token(class::OPEN_SQUARE),
        Item::Rule(rule::MANY_ROWS),
        Item::Token(class::CLOSE_SQUARE),
        Item::Token(class::OPEN_SQUARE),
        Item::Token(class::SHARES),
        Item::Token(class::CLOSE_SQUARE),
        Item::Token(class::SEMICOLON)
    ]
);

/// slots: nothing
pub const NO_SLOTS: Production = production!(
    rule::SLOTS,
    1 << class::CLOSE_CURLY | 1 << class::NAME | 1 << class::COUNTER,
    false,
    []
);

/// calls: call calls
pub const NEXT_CALL: Production = production!(
    rule::CALLS,
    1 << class::NAME | 1 << class::COUNTER,
    false,
    [Item::Rule(rule::CALL), Item::Rule(rule::CALLS)]
);

/// calls: nothing
pub const NO_MORE_CALLS: Production = production!(rule::CALLS, 1 << class::CLOSE_CURLY, false, []);

/// call: name `(` arg args `)` `;`
pub const CALL: Production = production!(
    rule::CALL,
    1 << class::NAME | 1 << class::COUNTER,
    false,
    [
        Item::Rule(rule::NAME),
        Item::Token(class::OPEN_ROUND),
        Item::Rule(rule::ARG),
        Item::Rule(rule::ARGS),
        Item::Token(class::CLOSE_ROUND),
        Item::Token(class::SEMICOLON)
    ]
);

/// args: `,` arg args
pub const NEXT_ARG: Production = production!(
    rule::ARGS,
    1 << class::COMMA,
    false,
    [
        Item::Token(class::COMMA),
        Item::Rule(rule::ARG),
        Item::Rule(rule::ARGS)
    ]
);

/// args: nothing
pub const NO_MORE_ARGS: Production = production!(rule::ARGS, 1 << class::CLOSE_ROUND, false, []);

/// arg: `out` `[` number `]`
pub const OUT_ARG: Production = production!(
    rule::ARG,
    1 << class::OUT,
    false,
    [
        Item::Token(class::OUT),
        Item::Token(class::OPEN_SQUARE),
        Item::Rule(rule::NUMBER),
        Item::Token(class::CLOSE_SQUARE)
    ]
);

/// arg: `in` `[` number `]`
pub const IN_ARG: Production = production!(
    rule::ARG,
    1 << class::IN,
    false,
    [
        Item::Token(class::IN),
        Item::Token(class::OPEN_SQUARE),
        Item::Rule(rule::NUMBER),
        Item::Token(class::CLOSE_SQUARE)
    ]
);

/// arg: `v` `[` number `]`
pub const SLOT_ARG: Production = production!(
    rule::ARG,
    1 << class::SLOTS,
    false,
    [
        Item::Token(class::SLOTS),
        Item::Token(class::OPEN_SQUARE),
        Item::Rule(rule::NUMBER),
        Item::Token(class::CLOSE_SQUARE)
    ]
);

/// arg: `UINT64_C` `(` number `)`
pub const NUMBER_ARG: Production = production!(
    rule::ARG,
    1 << class::CONSTANT,
    false,
    [
        Item::Token(class::CONSTANT),
        Item::Token(class::OPEN_ROUND),
        Item::Rule(rule::NUMBER),
        Item::Token(class::CLOSE_ROUND)
    ]
);
