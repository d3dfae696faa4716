//! The tree of a file of the C subset in which masked code is printed: gadgets, and the calls of the function `masked`.
#![tactic(auto)]

use tor_edge::{Boxed, List, Name};

/// A file: the bits of its type `reg`, its gadgets in text order, the rows of `out`, `in` and `v`, and the calls of `masked`.
#[derive(Drop)]
pub struct CFile {
    pub reg_bits: u32,
    pub gadgets: List<CFun>,
    pub outputs: u32,
    pub inputs: u32,
    /// 0 where `v` is not declared.
    pub slots: u32,
    pub calls: List<CCall>,
}

/// A gadget.
#[derive(Drop)]
pub struct CFun {
    pub name: Name,
    pub params: List<CParam>,
    pub body: List<CStmt>,
}

#[derive(Drop)]
pub enum CParam {
    /// `reg NAME[D]`
    Array(Name),
    /// `uint64_t NAME`
    Word(Name),
}

#[derive(Drop)]
#[cycle(statements)]
pub enum CStmt {
    /// `NAME[index] = (reg)value;`
    Assign {
        array: Name,
        index: CIndex,
        value: CExpr,
    },
    /// `uint64_t NAME = value;`
    Let {
        name: Name,
        value: CExpr,
    },
    /// `for (unsigned NAME = low; NAME < D; NAME++) { body }`
    For {
        counter: Name,
        low: CLow,
        body: List<CStmt>,
    },
}

#[derive(Drop)]
pub enum CIndex {
    Number(u64),
    Counter(Name),
}

/// Where a loop begins.
#[derive(Drop)]
pub enum CLow {
    Number(u64),
    /// `NAME + 1`
    After(Name),
}

/// An expression over words of 64 bits.
#[derive(Drop)]
#[cycle(expressions)]
pub enum CExpr {
    /// `(uint64_t)NAME[index]`
    Cell {
        array: Name,
        index: CIndex,
    },
    Word(Name),
    /// `UINT64_C(N)`
    Number(u64),
    /// `tornado_random()`
    Random,
    Two {
        op: COp,
        left: Boxed<CExpr>,
        right: Boxed<CExpr>,
    },
}

#[derive(Clone, Copy, Drop)]
pub enum COp {
    Xor,
    And,
    Or,
    Shl,
    Shr,
    Sub,
}

/// A call of a gadget in `masked`.
#[derive(Drop)]
pub struct CCall {
    pub gadget: Name,
    pub args: List<CArg>,
}

#[derive(Clone, Copy, Drop)]
pub enum CArg {
    /// `out[N]`
    Out(u64),
    /// `in[N]`
    Input(u64),
    /// `v[N]`
    Slot(u64),
    /// `UINT64_C(N)`
    Number(u64),
}
