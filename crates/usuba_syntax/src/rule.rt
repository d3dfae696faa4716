//! The rules of the grammar, from the top down.

pub const FILE: u8 = 0;

pub const DEFS: u8 = 1;

pub const MORE_DEFS: u8 = 2;

pub const DEF: u8 = 3;

pub const PLAIN_DEF: u8 = 4;

pub const GRID: u8 = 5;

pub const NUMBERS: u8 = 6;

pub const MORE_NUMBERS: u8 = 7;

pub const LOCALS: u8 = 8;

pub const RESULTS: u8 = 9;

pub const DECLS: u8 = 10;

pub const MORE_DECLS: u8 = 11;

pub const DECL: u8 = 12;

pub const MORE_NAMES: u8 = 13;

pub const SHAPE: u8 = 14;

pub const DIMS: u8 = 15;

pub const ITEMS: u8 = 16;

pub const AFTER_LOOP: u8 = 17;

pub const AFTER_EQUATION: u8 = 18;

pub const LOOP: u8 = 19;

pub const BOUNDS: u8 = 20;

pub const BODY: u8 = 21;

pub const EQUATION: u8 = 22;

pub const LEFT: u8 = 23;

pub const SPOT_GROUP: u8 = 24;

pub const SPOTS: u8 = 25;

pub const MORE_SPOTS: u8 = 26;

pub const SPOT: u8 = 27;

pub const PICKS: u8 = 28;

pub const PICK: u8 = 29;

pub const HIGH: u8 = 30;

pub const EXPR: u8 = 31;

pub const OR_LINKS: u8 = 32;

pub const XORS: u8 = 33;

pub const XOR_LINKS: u8 = 34;

pub const ANDS: u8 = 35;

pub const AND_LINKS: u8 = 36;

pub const SHIFTS: u8 = 37;

pub const SHIFT_LINKS: u8 = 38;

pub const UNARY: u8 = 39;

pub const COMPLEMENT: u8 = 40;

pub const PRIMARY: u8 = 41;

pub const AFTER_NAME: u8 = 42;

pub const EXPR_GROUP: u8 = 43;

pub const EXPRS: u8 = 44;

pub const MORE_EXPRS: u8 = 45;

pub const REFRESH_ARGS: u8 = 46;

pub const INDEX: u8 = 47;

pub const SUM_LINKS: u8 = 48;

pub const PRODUCT: u8 = 49;

pub const PRODUCT_LINKS: u8 = 50;

pub const ATOM: u8 = 51;

pub const INDEX_GROUP: u8 = 52;

pub const NAME: u8 = 53;

pub const NUMBER: u8 = 54;

pub const POSITIVE_NUMBER: u8 = 55;
