//! The trees of gadgets.

ghost use Rattle.std.specs.Prelude.{◌≡◌, IfOk};
ghost use Rattle.c_trees.specs.State.Making as making;

use crate::first::{First, first_of, name_in, skip};
use crate::statements::statements;
use c_tokens::Token;
use c_tree::{CFun, CParam};
use std::alloc::{AllocError, Global};
use tor_edge::List;

fn param<'a>(alloc: Global, text: &'a [Token]) -> Result<(CParam, &'a [Token]), AllocError>
    ensures { IfOk result (λ made. (made.0, made.1.now) ≡ making.param_of text.now) }
{
    let name = name_in(alloc, skip(text, 1))?;
    match first_of(text) {
        First::Reg => Ok((CParam::Array(name), skip(text, 5))),
        _ => Ok((CParam::Word(name), skip(text, 2))),
    }
}

fn more_params<'a>(
    alloc: Global,
    first: CParam,
    text: &'a [Token],
) -> Result<(List<CParam>, &'a [Token]), AllocError>
    ensures { IfOk result (λ made. (made.0, made.1.now) ≡ making.with_first first (making.more_params text.now)) }
{
    let mut made = List::new(alloc);
    made.push(first)?;
    let mut rest = text;
    for _ in 0..text.len() {
        let First::Comma = first_of(rest) else {
            return Ok((made, rest));
        };
        let (item, behind) = param(alloc, skip(rest, 1))?;
        made.push(item)?;
        rest = behind;
    }
    Ok((made, rest))
}

fn params<'a>(alloc: Global, text: &'a [Token]) -> Result<(List<CParam>, &'a [Token]), AllocError>
    ensures { IfOk result (λ made. (made.0, made.1.now) ≡ making.params_of text.now) }
{
    let (first, behind) = param(alloc, text)?;
    more_params(alloc, first, behind)
}

fn gadget<'a>(alloc: Global, text: &'a [Token]) -> Result<(CFun, &'a [Token]), AllocError>
    ensures { IfOk result (λ made. (made.0, made.1.now) ≡ making.gadget_of text.now) }
{
    let name = name_in(alloc, skip(text, 2))?;
    let (params, head) = params(alloc, skip(text, 4))?;
    let (body, behind) = statements(alloc, 2, skip(head, 2))?;
    Ok((CFun { name, params, body }, skip(behind, 1)))
}

/// Gadgets up to `void`.
pub fn gadgets<'a>(
    alloc: Global,
    text: &'a [Token],
) -> Result<(List<CFun>, &'a [Token]), AllocError>
    ensures { IfOk result (λ made. (made.0, made.1.now) ≡ making.gadgets_of text.now) }
{
    let mut made = List::new(alloc);
    let mut rest = text;
    for _ in 0..text.len() {
        if let First::Void = first_of(rest) {
            return Ok((made, rest));
        }
        let (item, behind) = gadget(alloc, rest)?;
        made.push(item)?;
        rest = behind;
    }
    Ok((made, rest))
}
