ghost use Rattle.std.specs.Prelude.{◌≡◌};
ghost use Rattle.usuba_types.specs.Sizes.{capped_at, callee_in, callees_in, node_size};
ghost use Rattle.usuba_types.specs.State.Adding.{after_call, after_calls};

use usuba_code::{Operation, Table};

/// The operations of a definition, and the calls of the longest chain from it. Each count stops at 2^64 - 1.
#[derive(Clone, Copy, Drop)]
pub struct CappedSize {
    pub operations: u64,
    pub chain: u64,
}

// The size of the definition at a number; none at all past all.
pub fn size_at(known: &[CappedSize], number: u32) -> CappedSize
    ensures { result ≡ capped_at known.now number }
{
    match known.get(number as usize) {
        Some(size) => *size,
        None => CappedSize {
            operations: 0,
            chain: 0,
        },
    }
}

// One more call of a definition of this size.
fn with_call(size: CappedSize, callee: CappedSize) -> CappedSize
    ensures { result ≡ after_call size callee }
{
    CappedSize {
        operations: size.operations.saturating_add(callee.operations),
        chain: size.chain.max(callee.chain.saturating_add(1)),
    }
}

// One more operation of code.
fn with_operation(size: CappedSize, operation: Operation, known: &[CappedSize]) -> CappedSize
    ensures { result ≡ after_calls known.now size (callee_in operation) }
{
    match operation {
        Operation::Call { callee, .. } => with_call(size, size_at(known, callee)),
        _ => size,
    }
}

// The calls of code.
fn with_code(mut size: CappedSize, code: &[Operation], known: &[CappedSize]) -> CappedSize
    ensures { result ≡ after_calls known.now size (callees_in code.now) }
{
    for operation in code {
        size = with_operation(size, *operation, known);
    }
    size
}

/// The size of a node of so many operations of its own, where those of the earlier definitions are known, in the order of
/// the file.
pub fn size_of_node(table: &Table, count: u32, known: &[CappedSize]) -> CappedSize
    ensures { result ≡ node_size known.now count table.now.done }
{
    let mut size = CappedSize {
        operations: u64::from(count),
        chain: 0,
    };
    for k in 0..table.len() {
        size = with_code(size, table.operations(k), known);
    }
    size
}
