ghost use Rattle.std.specs.Prelude.{◌≡◌, ◌+◌, ◌≤◌, [], ◌∷◌, Some, OnOk, IfOk};
ghost use Rattle.usuba_model.specs.Indexes.{computed};
ghost use Rattle.usuba_model.specs.Unrolled.{natural as natural_of};
ghost use Rattle.usuba_cells.specs.Counters.{around};
ghost use Rattle.usuba_model.specs.Walk.{walk_fault, signature_of, number_step, call_step, operator_step, shift_step};
ghost use Rattle.usuba_model.specs.Walk.{refresh_step, weight as weight_of};
ghost use Rattle.usuba_model.specs.Numbers.{callee_number};
ghost use Rattle.usuba_walk.specs.State.Progress.{IfFault, Takes, Makes, with_code, moves_steps, moves_code};
ghost use Rattle.usuba_walk.specs.State.Progress.{moved_size};

use crate::count::counted;
use crate::definitions::Definitions;
use crate::faults::{computing_fault, first, is_beyond, is_too_big, natural, when};
use crate::progress::Progress;
use crate::stop::Stop;
use tor_edge::Place;
use usuba_cells::{Counter, compute};
use usuba_code::Operation;
use usuba_model::FaultKind;
use usuba_trees::{BitOp, Index, ShiftLink, Word};

// Takes a step, and adds its operation.
fn apply(
    progress: &mut Progress,
    place: Place,
    adds: u64,
    fault: Option<FaultKind>,
    operation: Operation,
) -> Result<(), Stop>
    ensures takes { OnOk result
        (Takes progress.old progress.new (record { place = place; adds = adds; fault = fault } ∷ [])
        (with_code progress.old.table (operation ∷ []))) }
    ensures stops { IfFault result
        (λ found. walk_fault progress.old.count (record { place = place; adds = adds; fault = fault } ∷ [])
        ≡ Some found) }
{
    progress.count = counted(progress.count, place, adds, fault)?;
    progress.table.push_operation(operation)?;
    Ok(())
}

/// Walks a number.
pub fn number(width: u32, progress: &mut Progress, place: Place, value: u64) -> Result<u32, Stop>
    ensures size { IfOk result (λ size. size ≡ 1) }
    ensures makes { IfOk result
        (λ size. Makes progress.old progress.new size (number_step width place value ∷ [])
        (Operation.Number value ∷ [])) }
    ensures stops { IfFault result
        (λ found. walk_fault progress.old.count (number_step width place value ∷ []) ≡ Some found) }
{
    let fault = when(is_too_big(width, value), FaultKind::ConstTooBig);
    apply(progress, place, 1, fault, Operation::Number(value))?;
    Ok(1)
}

/// Walks a call whose arguments have so many elements.
pub fn call(
    earlier: &Definitions<'_>,
    progress: &mut Progress,
    name: &Word,
    given: u32,
) -> Result<u32, Stop>
    ensures size { IfOk result (λ size. size ≡ (signature_of earlier.now name.now.text).outputs) }
    ensures makes { IfOk result (λ size. Makes progress.old progress.new size
        (call_step name.now.place (signature_of earlier.now name.now.text) given ∷ [])
        (Operation.Call (callee_number earlier.now name.now.text) given ∷ [])) }
    ensures stops { IfFault result (λ found.
        walk_fault progress.old.count (call_step name.now.place (signature_of earlier.now name.now.text) given ∷ [])
        ≡ Some found) }
{
    let callee = earlier.find(name.text.as_str());
    let operation = Operation::Call {
        callee: callee.number,
        inputs: given,
    };
    let fault = when(callee.inputs != given, FaultKind::SizeMismatch);
    apply(
        progress,
        name.place,
        u64::from(callee.outputs),
        fault,
        operation,
    )?;
    Ok(callee.outputs)
}

/// Walks the sign of a complement of so many elements.
pub fn complement(progress: &mut Progress, place: Place, size: u32) -> Result<u32, Stop>
    ensures size { IfOk result (λ made. made ≡ size) }
    ensures makes { IfOk result
        (λ made. Makes progress.old progress.new made (record { place = place; adds = size; fault = None } ∷ [])
        (Operation.Complement size ∷ [])) }
    ensures stops { IfFault result
        (λ found. walk_fault progress.old.count (record { place = place; adds = size; fault = None } ∷ [])
        ≡ Some found) }
{
    apply(
        progress,
        place,
        u64::from(size),
        None,
        Operation::Complement(size),
    )?;
    Ok(size)
}

// What an operator adds for each element.
fn weight(op: BitOp) -> u64
    ensures value { result ≡ weight_of op }
    ensures few { result ≤ 4 }
{
    match op {
        BitOp::And | BitOp::Xor => 1,
        BitOp::Or => 4,
    }
}

/// Walks the sign of an operator on two values of so many elements.
pub fn operator(
    progress: &mut Progress,
    op: BitOp,
    place: Place,
    left: u32,
    right: u32,
) -> Result<(), Stop>
    ensures takes { OnOk result
        (Takes progress.old progress.new (operator_step op place left right ∷ [])
        (with_code progress.old.table (Operation.Combine op left ∷ []))) }
    ensures stops { IfFault result
        (λ found. walk_fault progress.old.count (operator_step op place left right ∷ []) ≡ Some found) }
{
    let fault = when(left != right, FaultKind::SizeMismatch);
    let adds = weight(op) * u64::from(left);
    apply(progress, place, adds, fault, Operation::Combine(op, left))
}

// Walks one shift of so many elements.
fn shift(
    width: u32,
    counters: &[Counter<'_>],
    progress: &mut Progress,
    size: u32,
    sign: &ShiftLink,
) -> Result<(), Stop>
    ensures takes { OnOk result
        (Takes progress.old progress.new
        (shift_step width sign.now.place size (computed sign.now.amount (around counters.now)) ∷ [])
        (with_code progress.old.table
        (Operation.Shift sign.now.kind (natural_of (computed sign.now.amount (around counters.now)).value) ∷ []))) }
    ensures stops { IfFault result (λ found.
        walk_fault progress.old.count
        (shift_step width sign.now.place size (computed sign.now.amount (around counters.now)) ∷ []) ≡ Some found) }
{
    let amount = compute(&sign.amount, counters);
    let far = when(is_beyond(width, amount.value), FaultKind::ShiftTooFar);
    let fault = first(
        when(size != 1, FaultKind::SizeMismatch),
        first(computing_fault(&amount), far),
    );
    let operation = Operation::Shift(sign.kind, natural(amount.value));
    apply(progress, sign.place, 1, fault, operation)
}

/// Walks shifts one after another, the first of so many elements, and answers how many there are after them.
pub fn walk_moves(
    width: u32,
    counters: &[Counter<'_>],
    progress: &mut Progress,
    mut size: u32,
    moves: &[ShiftLink],
) -> Result<u32, Stop>
    ensures size { IfOk result (λ made. made ≡ moved_size size moves.now) }
    ensures takes { OnOk result
        (Takes progress.old progress.new (moves_steps width (around counters.now) size moves.now)
        (with_code progress.old.table (moves_code (around counters.now) moves.now))) }
    ensures stops { IfFault result
        (λ found. walk_fault progress.old.count (moves_steps width (around counters.now) size moves.now)
        ≡ Some found) }
{
    for sign in moves {
        shift(width, counters, progress, size, sign)?;
        size = 1;
    }
    Ok(size)
}

/// Walks the word of a refresh of so many elements.
pub fn refresh(
    counters: &[Counter<'_>],
    progress: &mut Progress,
    place: Place,
    size: u32,
    index: &Index,
) -> Result<u32, Stop>
    ensures size { IfOk result (λ made. made ≡ size) }
    ensures makes { IfOk result
        (λ made. Makes progress.old progress.new made
        (refresh_step place size (computed index.now (around counters.now)) ∷ [])
        (Operation.Refresh (natural_of (computed index.now (around counters.now)).value) size ∷ [])) }
    ensures stops { IfFault result
        (λ found. walk_fault progress.old.count
        (refresh_step place size (computed index.now (around counters.now)) ∷ []) ≡ Some found) }
{
    let number = compute(index, counters);
    let beyond = when(is_beyond(65_536, number.value), FaultKind::IndexOut);
    let fault = first(computing_fault(&number), beyond);
    let operation = Operation::Refresh {
        number: natural(number.value),
        elements: size,
    };
    apply(progress, place, u64::from(size), fault, operation)?;
    Ok(size)
}
