//! The trees of expressions.

ghost use Rattle.std.specs.Prelude.{◌≡◌, drop, IfOk};
ghost use Rattle.c_trees.specs.State.Making as making;

use crate::first::{First, first_of, idx_in, name_in, number_in, op_in, skip};
use c_tokens::Token;
use c_tree::{CExpr, COp};
use std::alloc::{AllocError, Global};
use tor_edge::Boxed;

fn cell<'a>(alloc: Global, text: &'a [Token]) -> Result<(CExpr, &'a [Token]), AllocError>
    ensures { IfOk result (λ made. (made.0, made.1.now) ≡ making.bracket_of (making.ex_of 0) First.Word text.now) }
{
    let array = name_in(alloc, skip(text, 3))?;
    let index = idx_in(alloc, skip(text, 5))?;
    Ok((CExpr::Cell { array, index }, skip(text, 7)))
}

fn two(alloc: Global, op: COp, left: CExpr, right: CExpr) -> Result<CExpr, AllocError>
    ensures { IfOk result (λ made. made ≡ CExpr.Two op left right) }
{
    let left = Boxed::new(alloc, left)?;
    let right = Boxed::new(alloc, right)?;
    Ok(CExpr::Two { op, left, right })
}

#[cycle(nested)]
fn in_brackets<'a>(
    alloc: Global,
    room: u32,
    text: &'a [Token],
) -> Result<(CExpr, &'a [Token]), AllocError>
    ensures { IfOk result (λ made. (made.0, made.1.now)
        ≡ making.bracket_of (making.ex_of room) (making.first_of (drop 1 text.now)) text.now) }
{
    match first_of(skip(text, 1)) {
        First::Word => cell(alloc, text),
        _ => {
            let (left, behind) = expression(alloc, room, skip(text, 1))?;
            let (right, after) = expression(alloc, room, skip(behind, 1))?;
            let made = two(alloc, op_in(behind), left, right)?;
            Ok((made, skip(after, 1)))
        }
    }
}

/// An expression with fewer brackets inside it than so many, and the tokens behind it.
#[cycle(nested)]
pub fn expression<'a>(
    alloc: Global,
    room: u32,
    text: &'a [Token],
) -> Result<(CExpr, &'a [Token]), AllocError>
    ensures { IfOk result (λ made. (made.0, made.1.now) ≡ making.ex_of room text.now) }
{
    if room == 0 {
        return Ok((CExpr::Random, text));
    }
    match first_of(text) {
        First::Bracket => in_brackets(alloc, room - 1, text),
        First::Name => Ok((CExpr::Word(name_in(alloc, text)?), skip(text, 1))),
        First::Constant => Ok((CExpr::Number(number_in(skip(text, 2))), skip(text, 4))),
        _ => Ok((CExpr::Random, skip(text, 3))),
    }
}
