//! Masked C: the masked form of a core as a file of the C subset, and its text.
#![tactic(auto)]

mod call;
mod masked;

pub use c_text::write_c;
pub use c_tree::{CArg, CCall, CExpr, CFile, CFun, CIndex, CLow, COp, CParam, CStmt};
pub use masked::masked_file;
