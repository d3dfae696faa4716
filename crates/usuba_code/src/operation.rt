use usuba_trees::{BitOp, ShiftKind};

/// One operation of a stack machine over elements. What it takes is the last of the stack, what it makes goes there.
#[derive(Clone, Copy, Drop)]
pub enum Operation {
    /// Makes one element of a number.
    Number(u64),
    /// Makes the element that a cell holds.
    Cell(u32),
    /// Takes so many elements, and makes what the definition of this number makes of them.
    Call { callee: u32, inputs: u32 },
    /// Takes so many elements, and makes the complement of each.
    Complement(u32),
    /// Takes so many elements and as many before them, and makes what the operator makes of each two.
    Combine(BitOp, u32),
    /// Takes one element, and makes it shifted by an amount.
    Shift(ShiftKind, u32),
    /// Takes so many elements, and makes the refresh of this number of each.
    Refresh { number: u32, elements: u32 },
}
