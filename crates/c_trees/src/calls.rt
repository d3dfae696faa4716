//! The trees of calls.

ghost use Rattle.std.specs.Prelude.{◌≡◌, IfOk};
ghost use Rattle.c_trees.specs.State.Making as making;

use crate::first::{First, first_of, name_in, number_in, skip};
use c_tokens::Token;
use c_tree::{CArg, CCall};
use std::alloc::{AllocError, Global};
use tor_edge::List;

fn arg(text: &[Token]) -> (CArg, &[Token])
    ensures { (result.0, result.1.now) ≡ making.arg_of text.now }
{
    let number = number_in(skip(text, 2));
    let behind = skip(text, 4);
    match first_of(text) {
        First::Out => (CArg::Out(number), behind),
        First::In => (CArg::Input(number), behind),
        First::Slots => (CArg::Slot(number), behind),
        _ => (CArg::Number(number), behind),
    }
}

fn more_args<'a>(
    alloc: Global,
    first: CArg,
    text: &'a [Token],
) -> Result<(List<CArg>, &'a [Token]), AllocError>
    ensures { IfOk result (λ made. (made.0, made.1.now) ≡ making.with_first first (making.more_args text.now)) }
{
    let mut made = List::new(alloc);
    made.push(first)?;
    let mut rest = text;
    for _ in 0..text.len() {
        let First::Comma = first_of(rest) else {
            return Ok((made, rest));
        };
        let (item, behind) = arg(skip(rest, 1));
        made.push(item)?;
        rest = behind;
    }
    Ok((made, rest))
}

fn args<'a>(alloc: Global, text: &'a [Token]) -> Result<(List<CArg>, &'a [Token]), AllocError>
    ensures { IfOk result (λ made. (made.0, made.1.now) ≡ making.args_of text.now) }
{
    let (first, behind) = arg(text);
    more_args(alloc, first, behind)
}

fn call<'a>(alloc: Global, text: &'a [Token]) -> Result<(CCall, &'a [Token]), AllocError>
    ensures { IfOk result (λ made. (made.0, made.1.now) ≡ making.call_of text.now) }
{
    let gadget = name_in(alloc, text)?;
    let (args, behind) = args(alloc, skip(text, 2))?;
    Ok((CCall { gadget, args }, skip(behind, 2)))
}

/// Calls up to the brace.
pub fn calls<'a>(alloc: Global, text: &'a [Token]) -> Result<(List<CCall>, &'a [Token]), AllocError>
    ensures { IfOk result (λ made. (made.0, made.1.now) ≡ making.calls_of text.now) }
{
    let mut made = List::new(alloc);
    let mut rest = text;
    for _ in 0..text.len() {
        if let First::Close = first_of(rest) {
            return Ok((made, rest));
        }
        let (item, behind) = call(alloc, rest)?;
        made.push(item)?;
        rest = behind;
    }
    Ok((made, rest))
}
