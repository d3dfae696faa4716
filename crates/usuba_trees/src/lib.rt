//! The tree of a source file: what its bytes spell by the source grammar.
//!
//! A level of an expression or an index with one operand is that operand, one with more is a chain.
#![tactic(auto)]

use tor_edge::{Boxed, List, Name, Place};

/// A source file: its definitions in text order.
#[derive(Drop)]
pub struct File {
    pub defs: List<Def>,
}

#[derive(Drop)]
pub enum Def {
    Node(Node),
    Table(Grid),
    Perm(Grid),
}

/// A name where it stands in the text.
#[derive(Drop)]
pub struct Word {
    pub text: Name,
    pub place: Place,
}

#[derive(Drop)]
pub struct Node {
    pub name: Word,
    pub inputs: List<Decl>,
    pub outputs: List<Decl>,
    pub locals: List<Decl>,
    pub items: List<Item>,
}

/// A table or a permutation: its entries in text order.
#[derive(Drop)]
pub struct Grid {
    pub name: Word,
    pub inputs: List<Decl>,
    pub outputs: List<Decl>,
    pub entries: List<u64>,
}

/// One declared name. A group `a, b : T` gives one for each name.
#[derive(Drop)]
pub struct Decl {
    pub name: Word,
    pub shape: Shape,
}

/// A type. Its place is that of its type word.
#[derive(Drop)]
pub struct Shape {
    pub base: Base,
    pub count: Option<u64>,
    pub dims: List<u64>,
    pub place: Place,
}

#[derive(Clone, Copy, Drop)]
pub enum Base {
    /// Elements of the program's width.
    Poly,
    /// Elements of so many bits, 1 to 64.
    Bits(u32),
}

#[derive(Drop)]
#[cycle(items)]
pub enum Item {
    Equation(Equation),
    Loop(Loop),
}

#[derive(Drop)]
pub struct Equation {
    pub left: List<Spot>,
    /// The place of the sign `=`.
    pub equal: Place,
    pub right: Expr,
}

#[derive(Drop)]
#[cycle(items)]
pub struct Loop {
    /// The place of the word `forall`.
    pub place: Place,
    pub counter: Word,
    pub low: Index,
    pub high: Index,
    pub items: List<Item>,
}

/// A variable, or the parts of it that its brackets pick.
#[derive(Drop)]
pub struct Spot {
    pub name: Word,
    pub picks: List<Pick>,
}

#[derive(Drop)]
pub enum Pick {
    One(Index),
    Range(Index, Index),
}

#[derive(Drop)]
#[cycle(exprs)]
pub enum Expr {
    Number {
        place: Place,
        value: u64,
    },
    Spot(Spot),
    Tuple(List<Expr>),
    Call {
        name: Word,
        args: List<Expr>,
    },
    Not {
        place: Place,
        inner: Boxed<Expr>,
    },
    Chain {
        op: BitOp,
        first: Boxed<Expr>,
        rest: List<Link>,
    },
    Shift {
        first: Boxed<Expr>,
        moves: List<ShiftLink>,
    },
    /// The place is that of the word `refresh`.
    Refresh {
        place: Place,
        inner: Boxed<Expr>,
        number: Index,
    },
}

#[derive(Clone, Copy, Drop)]
pub enum BitOp {
    And,
    Xor,
    Or,
}

/// A further operand of a chain, with the place of the sign before it.
#[derive(Drop)]
#[cycle(exprs)]
pub struct Link {
    pub place: Place,
    pub operand: Expr,
}

/// A shift by an amount, with the place of its sign.
#[derive(Drop)]
pub struct ShiftLink {
    pub kind: ShiftKind,
    pub place: Place,
    pub amount: Index,
}

#[derive(Clone, Copy, Drop)]
pub enum ShiftKind {
    Left,
    Right,
    RotLeft,
    RotRight,
}

/// An expression over whole numbers and loop counters.
#[derive(Drop)]
#[cycle(indexes)]
pub enum Index {
    Number(u64),
    Counter(Word),
    Chain {
        first: Boxed<Index>,
        rest: List<IndexLink>,
    },
}

/// A further operand of an index chain, with the sign before it.
#[derive(Drop)]
#[cycle(indexes)]
pub struct IndexLink {
    pub op: IndexOp,
    pub operand: Index,
}

#[derive(Clone, Copy, Drop)]
pub enum IndexOp {
    Add,
    Sub,
    Mul,
    Div,
    Rem,
}
