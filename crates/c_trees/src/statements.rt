//! The trees of statements.

ghost use Rattle.std.specs.Prelude.{◌≡◌, ◌<◌, [], IfOk};
ghost use Rattle.c_trees.specs.State.Making as making;

use crate::expressions::expression;
use crate::first::{First, first_of, idx_in, name_in, number_in, skip};
use c_tokens::Token;
use c_tree::{CLow, CStmt};
use std::alloc::{AllocError, Global};
use tor_edge::List;

fn low<'a>(alloc: Global, text: &'a [Token]) -> Result<(CLow, &'a [Token]), AllocError>
    ensures { IfOk result (λ made. (made.0, made.1.now) ≡ making.low_by (making.is_name (making.first_of text.now)) text.now) }
{
    match first_of(text) {
        First::Name => Ok((CLow::After(name_in(alloc, text)?), skip(text, 3))),
        _ => Ok((CLow::Number(number_in(text)), skip(text, 1))),
    }
}

fn assignment<'a>(alloc: Global, text: &'a [Token]) -> Result<(CStmt, &'a [Token]), AllocError>
    ensures { IfOk result (λ made. (made.0, made.1.now) ≡ making.assign_of text.now) }
{
    let array = name_in(alloc, text)?;
    let index = idx_in(alloc, skip(text, 2))?;
    let (value, behind) = expression(alloc, 129, skip(text, 8))?;
    Ok((
        CStmt::Assign {
            array,
            index,
            value,
        },
        skip(behind, 1),
    ))
}

fn declaration<'a>(alloc: Global, text: &'a [Token]) -> Result<(CStmt, &'a [Token]), AllocError>
    ensures { IfOk result (λ made. (made.0, made.1.now) ≡ making.let_of text.now) }
{
    let name = name_in(alloc, skip(text, 1))?;
    let (value, behind) = expression(alloc, 129, skip(text, 3))?;
    Ok((CStmt::Let { name, value }, skip(behind, 1)))
}

#[cycle(looped)]
fn inner<'a>(
    alloc: Global,
    loops: u32,
    text: &'a [Token],
) -> Result<(CStmt, &'a [Token]), AllocError>
    requires { loops < 3 }
    ensures { IfOk result (λ made. (made.0, made.1.now) ≡ making.for_of (making.stmts_of loops) text.now) }
{
    let counter = name_in(alloc, skip(text, 3))?;
    let (low, head) = low(alloc, skip(text, 5))?;
    let (body, behind) = statements(alloc, loops, skip(head, 9))?;
    Ok((CStmt::For { counter, low, body }, skip(behind, 1)))
}

fn innermost<'a>(alloc: Global, text: &'a [Token]) -> Result<(CStmt, &'a [Token]), AllocError>
    ensures { IfOk result (λ made. (made.0, made.1.now) ≡ making.for_of (λ rest. ([], rest)) text.now) }
{
    let counter = name_in(alloc, skip(text, 3))?;
    let (low, head) = low(alloc, skip(text, 5))?;
    let body = List::new(alloc);
    Ok((CStmt::For { counter, low, body }, skip(skip(head, 9), 1)))
}

// A statement, where so many loops may yet stand inside one another.
#[cycle(looped)]
fn statement<'a>(
    alloc: Global,
    loops: u32,
    text: &'a [Token],
) -> Result<(CStmt, &'a [Token]), AllocError>
    requires { loops < 3 }
    ensures { IfOk result (λ made. (made.0, made.1.now) ≡ making.stmt_of loops text.now) }
{
    match first_of(text) {
        First::Word => declaration(alloc, text),
        First::For => {
            if loops == 0 {
                innermost(alloc, text)
            } else {
                inner(alloc, loops - 1, text)
            }
        }
        _ => assignment(alloc, text),
    }
}

/// Statements up to the brace.
#[cycle(looped)]
pub fn statements<'a>(
    alloc: Global,
    loops: u32,
    text: &'a [Token],
) -> Result<(List<CStmt>, &'a [Token]), AllocError>
    requires { loops < 3 }
    ensures { IfOk result (λ made. (made.0, made.1.now) ≡ making.stmts_of loops text.now) }
{
    let mut made = List::new(alloc);
    let mut rest = text;
    for _ in 0..text.len() {
        if let First::Close = first_of(rest) {
            return Ok((made, rest));
        }
        let (item, behind) = statement(alloc, loops, rest)?;
        made.push(item)?;
        rest = behind;
    }
    Ok((made, rest))
}
