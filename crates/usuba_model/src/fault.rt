use tor_edge::Place;

/// What is wrong with a source.
#[derive(Debug, Clone, Copy, PartialEq, Eq, Drop)]
pub enum FaultKind {
    DuplicateName,
    UnknownName,
    NoEntry,
    MixedWidth,
    NoWidth,
    BadTable,
    BadPerm,
    ZeroDivisor,
    IndexOut,
    ConstTooBig,
    ShiftTooFar,
    SizeMismatch,
    TooManyOps,
    AssignedTwice,
    Unassigned,
    Cyclic,
    CallsTooDeep,
}

/// A fault of a source: what is wrong, and where.
#[derive(Debug, Clone, Copy, PartialEq, Eq, Drop)]
pub struct Fault {
    pub kind: FaultKind,
    pub place: Place,
}
