ghost use Rattle.std.specs.Prelude.{◌≡◌, ℕ, ◌+◌, ◌-◌, ◌*◌, ◌^◌, ◌<◌, ◌≤◌, ◌++◌, ◌∷◌, [], Some, length, map, take, drop, vec_len, IfOk, OnOk};
ghost use Rattle.usuba_code.specs.CodeLaw.{Each};
ghost use Rattle.usuba_code.specs.Machine.{with_last, with_last_two};
ghost use Rattle.usuba_model.specs.Rounds.{element_by_element};
ghost use Rattle.usuba_model.specs.Walk.{weight};
ghost use Rattle.usuba_plan.specs.State.Handles.{unary_of, UnaryFits};
ghost use Rattle.usuba_plan.specs.Store.{Made, Gives, Keeps, meanings};

use crate::operators::Elements;
use std::alloc::AllocError;
use usuba_trees::{BitOp, ShiftKind};

/// An operator of one operand.
#[derive(Clone, Copy, Drop)]
pub enum Unary {
    Complement,
    Shift(ShiftKind, u32),
    Refresh(u32),
}

fn apply<E: Elements>(elements: &mut E, unary: Unary, a: E::Handle) -> Result<E::Handle, AllocError>
    requires room { 1 ≤ (E.store elements.old).room }
    requires fits { UnaryFits (E.store elements.old).width unary }
    requires held { (E.store elements.old).holds a }
    ensures made { IfOk result (λ h.
        Made (E.store elements.new) h (unary_of (E.store elements.old).operators unary ((E.store elements.old).meaning a))) }
    ensures keeps { Keeps 1 (E.store elements.old) (E.store elements.new) }
{
    match unary {
        Unary::Complement => elements.complement(a),
        Unary::Shift(kind, amount) => elements.shift(kind, amount, a),
        Unary::Refresh(number) => elements.refresh(number, a),
    }
}

// Pushes what the operator makes of each operand.
fn push_each<E: Elements>(
    elements: &mut E,
    unary: Unary,
    operands: &[E::Handle],
    stack: &mut Vec<E::Handle>,
) -> Result<(), AllocError>
    requires room { length operands.now ≤ (E.store elements.old).room }
    requires fits { UnaryFits (E.store elements.old).width unary }
    requires held { Each (E.store elements.old).holds operands.now }
    requires stack { Each (E.store elements.old).holds stack.old.items }
    ensures made { OnOk result (Gives (E.store elements.new) stack.new.items
        (Some (meanings (E.store elements.old) stack.old.items
        ++ map (unary_of (E.store elements.old).operators unary) (meanings (E.store elements.old) operands.now)))) }
    ensures keeps { Keeps (length operands.now) (E.store elements.old) (E.store elements.new) }
{
    for operand in operands {
        let made = apply(elements, unary, *operand)?;
        stack.push(made)?;
    }
    Ok(())
}

// Pushes what the operator makes of each two operands.
fn push_pairs<E: Elements>(
    elements: &mut E,
    op: BitOp,
    left: &[E::Handle],
    right: &[E::Handle],
    stack: &mut Vec<E::Handle>,
) -> Result<(), AllocError>
    requires pairs { length left.now ≡ length right.now }
    requires room { weight op * length left.now ≤ (E.store elements.old).room }
    requires left { Each (E.store elements.old).holds left.now }
    requires right { Each (E.store elements.old).holds right.now }
    requires stack { Each (E.store elements.old).holds stack.old.items }
    ensures made { OnOk result (Gives (E.store elements.new) stack.new.items
        (Some (meanings (E.store elements.old) stack.old.items
        ++ element_by_element ((E.store elements.old).operators.operation_of op)
        (meanings (E.store elements.old) left.now) (meanings (E.store elements.old) right.now)))) }
    ensures keeps { Keeps (weight op * length left.now) (E.store elements.old) (E.store elements.new) }
{
    for i in 0..left.len() {
        let made = elements.combine(op, left[i], right[i])?;
        stack.push(made)?;
    }
    Ok(())
}

/// Takes the last so many handles.
pub fn take_last<H: Copy>(stack: &mut Vec<H>, count: usize) -> Result<Vec<H>, AllocError>
    requires { count ≤ vec_len stack.old }
    ensures taken { IfOk result (λ last. last.items ≡ drop (length stack.old.items - count) stack.old.items) }
    ensures below { OnOk result (stack.new.items ≡ take (length stack.old.items - count) stack.old.items) }
{
    stack.split_off(stack.len() - count)
}

/// Replaces the last so many handles by what the operator makes of each.
pub fn apply_last<E: Elements>(
    elements: &mut E,
    unary: Unary,
    count: usize,
    stack: &mut Vec<E::Handle>,
) -> Result<(), AllocError>
    requires count { count ≤ vec_len stack.old }
    requires room { count ≤ (E.store elements.old).room }
    requires fits { UnaryFits (E.store elements.old).width unary }
    requires stack { Each (E.store elements.old).holds stack.old.items }
    ensures made { OnOk result (Gives (E.store elements.new) stack.new.items
        (with_last count (map (unary_of (E.store elements.old).operators unary)) (meanings (E.store elements.old) stack.old.items))) }
    ensures keeps { Keeps count (E.store elements.old) (E.store elements.new) }
{
    let operands = take_last(stack, count)?;
    push_each(elements, unary, operands.as_slice(), stack)
}

/// Replaces the last so many handles, and as many before them, by what the operator makes of each two.
pub fn combine_last<E: Elements>(
    elements: &mut E,
    op: BitOp,
    count: usize,
    stack: &mut Vec<E::Handle>,
) -> Result<(), AllocError>
    requires count { count + count ≤ vec_len stack.old }
    requires room { weight op * count ≤ (E.store elements.old).room }
    requires stack { Each (E.store elements.old).holds stack.old.items }
    ensures made { OnOk result (Gives (E.store elements.new) stack.new.items
        (with_last_two count (element_by_element ((E.store elements.old).operators.operation_of op))
        (meanings (E.store elements.old) stack.old.items))) }
    ensures keeps { Keeps (weight op * count) (E.store elements.old) (E.store elements.new) }
{
    let right = take_last(stack, count)?;
    let left = take_last(stack, count)?;
    push_pairs(elements, op, left.as_slice(), right.as_slice(), stack)
}

/// Pushes the element of a number.
pub fn push_number<E: Elements>(
    elements: &mut E,
    value: u64,
    stack: &mut Vec<E::Handle>,
) -> Result<(), AllocError>
    requires room { 1 ≤ (E.store elements.old).room }
    requires fits { value < 2 ^ (E.store elements.old).width }
    requires stack { Each (E.store elements.old).holds stack.old.items }
    ensures made { OnOk result (Gives (E.store elements.new) stack.new.items
        (Some (meanings (E.store elements.old) stack.old.items ++ (E.store elements.old).operators.number_of value ∷ []))) }
    ensures keeps { Keeps 1 (E.store elements.old) (E.store elements.new) }
{
    let made = elements.number(value)?;
    stack.push(made)?;
    Ok(())
}
