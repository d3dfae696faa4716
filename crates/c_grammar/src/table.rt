//! The grammar of the C subset as a table: its rules, factored so that the class of the next token tells each step.

pub mod expressions;
pub mod files;
pub mod statements;

use crate::class::END;
use crate::rule;
use ll_reader::{Frame, Production};

/// A file and its end; at most 128 brackets of `( ex op ex )` may be open at once.
pub const FRAME: Frame = Frame {
    start: rule::FILE,
    end: END,
    deepest: 128,
};

/// The productions of the rows.
pub static PRODUCTIONS: [Production; 68] = [
    files::FILE,
    files::NEXT_GADGET,
    files::NO_MORE_GADGETS,
    files::GADGET,
    files::NEXT_PARAM,
    files::NO_MORE_PARAMS,
    files::ARRAY_PARAM,
    files::WORD_PARAM,
    statements::NEXT_STMT,
    statements::NO_MORE_STMTS,
    statements::ASSIGN,
    statements::LET,
    statements::LOOP,
    statements::NEXT_STMT_IN_LOOP,
    statements::NO_MORE_STMTS_IN_LOOP,
    statements::ASSIGN_IN_LOOP,
    statements::LET_IN_LOOP,
    statements::LOOP_IN_LOOP,
    statements::NEXT_STMT_IN_TWO_LOOPS,
    statements::NO_MORE_STMTS_IN_TWO_LOOPS,
    statements::ASSIGN_IN_TWO_LOOPS,
    statements::LET_IN_TWO_LOOPS,
    statements::ASSIGNMENT,
    statements::DECLARATION,
    statements::HEAD,
    statements::STEPS,
    statements::NUMBER_LOW,
    statements::AFTER_LOW,
    files::MASKED,
    files::ROWS,
    files::BODY,
    files::SLOTS,
    files::NO_SLOTS,
    files::NEXT_CALL,
    files::NO_MORE_CALLS,
    files::CALL,
    files::NEXT_ARG,
    files::NO_MORE_ARGS,
    files::OUT_ARG,
    files::IN_ARG,
    files::SLOT_ARG,
    files::NUMBER_ARG,
    expressions::NUMBER_IDX,
    expressions::NAME_IDX,
    expressions::BRACKETS,
    expressions::NAME_EX,
    expressions::NUMBER_EX,
    expressions::RANDOM_EX,
    expressions::CELL,
    expressions::TWO,
    expressions::XOR,
    expressions::AND,
    expressions::OR,
    expressions::SHL,
    expressions::SHR,
    expressions::SUB,
    expressions::OTHER_NAME,
    expressions::COUNTER_NAME,
    expressions::ZERO_NUMBER,
    expressions::ONE_NUMBER,
    expressions::FEW_NUMBER,
    expressions::MANY_NUMBER,
    expressions::PAST_NUMBER,
    expressions::ONE_ROW,
    expressions::FEW_ROWS,
    expressions::ONE_SLOT,
    expressions::FEW_SLOTS,
    expressions::MANY_SLOTS,
];
