// Operands with the same rows.
ghost use Rattle.std.specs.Prelude.{◌≡◌, ◌<◌, ◌≤◌, length, All, IfOk};
ghost use Rattle.linear_view.specs.Alike.{AreAlike, IsAlike, IsOperand, rows_in};

use crate::operand::{Operand, Side};
use crate::seen::are_equal;
use crate::shared_rows::SharedRows;
use crate::view::Pair;
use std::alloc::{AllocError, Global};

// By place: an operand with the same rows.
pub(crate) fn alike_operands(alloc: Global, products: &[Pair]) -> Result<Vec<Operand>, AllocError>
    requires { length products.now ≤ 32768 }
    ensures { IfOk result (λ alike. AreAlike products.now alike.items) }
{
    let mut alike = Vec::with_capacity(alloc, 2 * products.len())?;
    let mut firsts = Vec::new(alloc);
    for product in 0..products.len() as u32 {
        let left = Operand {
            product,
            side: Side::Left,
        };
        alike.push(first_alike(products, &mut firsts, left)?)?;
        alike.push(first_alike(products, &mut firsts, left.other())?)?;
    }
    Ok(alike)
}

// The operand of `firsts` that has the same rows, by their number, or else the operand itself.
fn first_alike(
    products: &[Pair],
    firsts: &mut Vec<Operand>,
    operand: Operand,
) -> Result<Operand, AllocError>
    requires operand { IsOperand products.now operand }
    requires firsts { All (IsOperand products.now) firsts.old.items }
    ensures alike { IfOk result (λ first. IsAlike products.now operand first) }
    ensures firsts { All (IsOperand products.now) firsts.new.items }
{
    let rows = rows_in(products, operand);
    let number = rows.number() as usize;
    if number == firsts.len() {
        firsts.push(operand)?;
        return Ok(operand);
    }
    if let Some(first) = firsts.get(number) {
        if are_equal(rows_in(products, *first).as_slice(), rows.as_slice()) {
            return Ok(*first);
        }
    }
    Ok(operand)
}

// The rows of an operand of these products.
fn rows_in(products: &[Pair], operand: Operand) -> &SharedRows
    requires { IsOperand products.now operand }
    ensures { result.now ≡ rows_in products.now operand }
{
    products[operand.product as usize].on(operand.side)
}
