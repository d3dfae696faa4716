//! The rows of definitions and declarations. Each is a production, and the action on the parts of its items.

use crate::class::{
    CLOSE_CURLY, CLOSE_ROUND, CLOSE_SQUARE, COLON, COMMA, END, INLINE, LET, NAMES, NO_INLINE, NODE,
    NUMBERS, OPEN_CURLY, OPEN_ROUND, OPEN_SQUARE, PERM, RETURNS, TABLE, TEL, TYPE_WORD, VARS,
};
use crate::rule;
use ll_reader::{Item, Production, production};
use usuba_parts::Action;

/// file: defs
pub const FILE: Production = production!(
    rule::FILE,
    1 << NODE | 1 << TABLE | 1 << PERM | 1 << INLINE | 1 << NO_INLINE,
    false,
    [Item::Rule(rule::DEFS)]
);

pub const FILE_ACTION: Action = Action::Finish;

/// defs: def more_defs
pub const DEFS: Production = production!(
    rule::DEFS,
    1 << NODE | 1 << TABLE | 1 << PERM | 1 << INLINE | 1 << NO_INLINE,
    false,
    [Item::Rule(rule::DEF), Item::Rule(rule::MORE_DEFS)]
);

pub const DEFS_ACTION: Action = Action::AddDef;

/// more_defs: defs
pub const MORE_DEFS: Production = production!(
    rule::MORE_DEFS,
    1 << NODE | 1 << TABLE | 1 << PERM | 1 << INLINE | 1 << NO_INLINE,
    false,
    [Item::Rule(rule::DEFS)]
);

pub const MORE_DEFS_ACTION: Action = Action::Keep;

/// more_defs: nothing
pub const NO_MORE_DEFS: Production = production!(rule::MORE_DEFS, 1 << END, false, []);

pub const NO_MORE_DEFS_ACTION: Action = Action::NoDefs;

/// def: plain_def
pub const PLAIN_DEF: Production = production!(
    rule::DEF,
    1 << NODE | 1 << TABLE | 1 << PERM,
    false,
    [Item::Rule(rule::PLAIN_DEF)]
);

pub const PLAIN_DEF_ACTION: Action = Action::Keep;

/// def: `_inline` plain_def
pub const INLINE_DEF: Production = production!(
    rule::DEF,
    1 << INLINE,
    false,
    [Item::Token(INLINE), Item::Rule(rule::PLAIN_DEF)]
);

pub const INLINE_DEF_ACTION: Action = Action::Skip;

/// def: `_no_inline` plain_def
pub const NO_INLINE_DEF: Production = production!(
    rule::DEF,
    1 << NO_INLINE,
    false,
    [Item::Token(NO_INLINE), Item::Rule(rule::PLAIN_DEF)]
);

pub const NO_INLINE_DEF_ACTION: Action = Action::Skip;

/// plain_def: `node` name `(` decls `)` `returns` results locals `let` items `tel`
pub const NODE_DEF: Production = production!(
    rule::PLAIN_DEF,
    1 << NODE,
    false,
    [
        Item::Token(NODE),
        Item::Rule(rule::NAME),
        Item::Token(OPEN_ROUND),
        Item::Rule(rule::DECLS),
        Item::Token(CLOSE_ROUND),
        Item::Token(RETURNS),
        Item::Rule(rule::RESULTS),
        Item::Rule(rule::LOCALS),
        Item::Token(LET),
        Item::Rule(rule::ITEMS),
        Item::Token(TEL)
    ]
);

pub const NODE_DEF_ACTION: Action = Action::Node;

/// plain_def: `table` grid
pub const TABLE_DEF: Production = production!(
    rule::PLAIN_DEF,
    1 << TABLE,
    false,
    [Item::Token(TABLE), Item::Rule(rule::GRID)]
);

pub const TABLE_DEF_ACTION: Action = Action::Table;

/// plain_def: `perm` grid
pub const PERM_DEF: Production = production!(
    rule::PLAIN_DEF,
    1 << PERM,
    false,
    [Item::Token(PERM), Item::Rule(rule::GRID)]
);

pub const PERM_DEF_ACTION: Action = Action::Perm;

/// grid: name `(` decls `)` `returns` results `{` numbers `}`
pub const GRID: Production = production!(
    rule::GRID,
    NAMES,
    false,
    [
        Item::Rule(rule::NAME),
        Item::Token(OPEN_ROUND),
        Item::Rule(rule::DECLS),
        Item::Token(CLOSE_ROUND),
        Item::Token(RETURNS),
        Item::Rule(rule::RESULTS),
        Item::Token(OPEN_CURLY),
        Item::Rule(rule::NUMBERS),
        Item::Token(CLOSE_CURLY)
    ]
);

pub const GRID_ACTION: Action = Action::Grid;

/// numbers: number more_numbers
pub const NUMBERS_OF_GRID: Production = production!(
    rule::NUMBERS,
    NUMBERS,
    false,
    [Item::Rule(rule::NUMBER), Item::Rule(rule::MORE_NUMBERS)]
);

pub const NUMBERS_OF_GRID_ACTION: Action = Action::AddNumber;

/// more_numbers: `,` numbers
pub const MORE_NUMBERS: Production = production!(
    rule::MORE_NUMBERS,
    1 << COMMA,
    false,
    [Item::Token(COMMA), Item::Rule(rule::NUMBERS)]
);

pub const MORE_NUMBERS_ACTION: Action = Action::Skip;

/// more_numbers: nothing
pub const NO_MORE_NUMBERS: Production = production!(
    rule::MORE_NUMBERS,
    1 << CLOSE_CURLY,
    false,
    []
);

pub const NO_MORE_NUMBERS_ACTION: Action = Action::NoNumbers;

/// locals: `vars` decls
pub const LOCALS: Production = production!(
    rule::LOCALS,
    1 << VARS,
    false,
    [Item::Token(VARS), Item::Rule(rule::DECLS)]
);

pub const LOCALS_ACTION: Action = Action::Skip;

/// locals: nothing
pub const NO_LOCALS: Production = production!(rule::LOCALS, 1 << LET, false, []);

pub const NO_LOCALS_ACTION: Action = Action::NoDecls;

/// results: `(` decls `)`
pub const RESULTS_IN_BRACKETS: Production = production!(
    rule::RESULTS,
    1 << OPEN_ROUND,
    false,
    [
        Item::Token(OPEN_ROUND),
        Item::Rule(rule::DECLS),
        Item::Token(CLOSE_ROUND)
    ]
);

pub const RESULTS_IN_BRACKETS_ACTION: Action = Action::Inner;

/// results: decls
pub const BARE_RESULTS: Production = production!(
    rule::RESULTS,
    NAMES,
    false,
    [Item::Rule(rule::DECLS)]
);

pub const BARE_RESULTS_ACTION: Action = Action::Keep;

/// decls: decl more_decls
pub const DECLS: Production = production!(
    rule::DECLS,
    NAMES,
    false,
    [Item::Rule(rule::DECL), Item::Rule(rule::MORE_DECLS)]
);

pub const DECLS_ACTION: Action = Action::JoinDecls;

/// more_decls: `,` decls
pub const MORE_DECLS: Production = production!(
    rule::MORE_DECLS,
    1 << COMMA,
    false,
    [Item::Token(COMMA), Item::Rule(rule::DECLS)]
);

pub const MORE_DECLS_ACTION: Action = Action::Skip;

/// more_decls: nothing
pub const NO_MORE_DECLS: Production = production!(
    rule::MORE_DECLS,
    1 << VARS | 1 << LET | 1 << CLOSE_ROUND | 1 << OPEN_CURLY,
    false,
    []
);

pub const NO_MORE_DECLS_ACTION: Action = Action::NoDecls;

/// decl: name more_names
pub const DECL: Production = production!(
    rule::DECL,
    NAMES,
    false,
    [Item::Rule(rule::NAME), Item::Rule(rule::MORE_NAMES)]
);

pub const DECL_ACTION: Action = Action::Declare;

/// more_names: `,` name more_names
pub const NEXT_NAME: Production = production!(
    rule::MORE_NAMES,
    1 << COMMA,
    false,
    [
        Item::Token(COMMA),
        Item::Rule(rule::NAME),
        Item::Rule(rule::MORE_NAMES)
    ]
);

pub const NEXT_NAME_ACTION: Action = Action::DeclareAlike;

/// more_names: `:` shape
pub const TYPE_OF_NAMES: Production = production!(
    rule::MORE_NAMES,
    1 << COLON,
    false,
    [Item::Token(COLON), Item::Rule(rule::SHAPE)]
);

pub const TYPE_OF_NAMES_ACTION: Action = Action::Group;

/// shape: TYPEWORD dims
pub const SHAPE: Production = production!(
    rule::SHAPE,
    1 << TYPE_WORD,
    false,
    [Item::Token(TYPE_WORD), Item::Rule(rule::DIMS)]
);

pub const SHAPE_ACTION: Action = Action::Shape;

/// dims: `[` positive_number `]` dims
pub const NEXT_DIM: Production = production!(
    rule::DIMS,
    1 << OPEN_SQUARE,
    false,
    [
        Item::Token(OPEN_SQUARE),
        Item::Rule(rule::POSITIVE_NUMBER),
        Item::Token(CLOSE_SQUARE),
        Item::Rule(rule::DIMS)
    ]
);

pub const NEXT_DIM_ACTION: Action = Action::AddDim;

/// dims: nothing
pub const NO_MORE_DIMS: Production = production!(
    rule::DIMS,
    1 << VARS | 1 << LET | 1 << CLOSE_ROUND | 1 << OPEN_CURLY | 1 << COMMA,
    false,
    []
);

pub const NO_MORE_DIMS_ACTION: Action = Action::NoNumbers;
