//! The rules of the grammar, from the top down.

pub const FILE: u8 = 0;

pub const GADGETS: u8 = 1;

pub const GADGET: u8 = 2;

pub const PARAMS: u8 = 3;

pub const PARAM: u8 = 4;

pub const STMTS: u8 = 5;

pub const STMT: u8 = 6;

pub const STMTS_IN_LOOP: u8 = 7;

pub const STMT_IN_LOOP: u8 = 8;

pub const STMTS_IN_TWO_LOOPS: u8 = 9;

pub const STMT_IN_TWO_LOOPS: u8 = 10;

pub const ASSIGN: u8 = 11;

pub const DECLARE: u8 = 12;

pub const HEAD: u8 = 13;

pub const STEPS: u8 = 14;

pub const LOW: u8 = 15;

pub const MASKED: u8 = 16;

pub const ROWS: u8 = 17;

pub const BODY: u8 = 18;

pub const SLOTS: u8 = 19;

pub const CALLS: u8 = 20;

pub const CALL: u8 = 21;

pub const ARGS: u8 = 22;

pub const ARG: u8 = 23;

pub const IDX: u8 = 24;

pub const EX: u8 = 25;

pub const INNER: u8 = 26;

pub const OP: u8 = 27;

pub const NAME: u8 = 28;

pub const NUMBER: u8 = 29;

pub const FEW_ROWS: u8 = 30;

pub const MANY_ROWS: u8 = 31;
