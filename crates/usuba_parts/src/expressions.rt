//! The actions of expressions.

ghost use Rattle.std.specs.Prelude.{◌≡◌, IfOk, IsTrue, OnOk, is_some};
ghost use Rattle.usuba_parts.specs.ExpressionActions as actions;

use crate::lists::in_order;
use crate::part::{Numeral, Part, Parts};
use std::alloc::{AllocError, Global};
use tor_edge::{Boxed, List};
use usuba_trees::{BitOp, Expr, Link, ShiftKind, ShiftLink, Spot};

pub fn chain(alloc: Global, op: BitOp, parts: &mut Parts) -> Result<(), AllocError>
    requires { IsTrue (is_some (actions.act_chain op parts.old)) }
    ensures { OnOk result (actions.act_chain op parts.old ≡ Some parts.new) }
{
    let first = parts.pop_expr();
    let rest = parts.pop_links();
    let rest = in_order(alloc, rest)?;
    parts.push(Part::Expr(chained(alloc, op, first, rest)?))
}

pub fn add_link(parts: &mut Parts) -> Result<(), AllocError>
    requires { IsTrue (is_some (actions.act_add_link parts.old)) }
    ensures { OnOk result (actions.act_add_link parts.old ≡ Some parts.new) }
{
    let place = parts.pop_mark();
    let operand = parts.pop_expr();
    let mut links = parts.pop_links();
    links.push(Link { place, operand })?;
    parts.push(Part::Links(links))
}

pub fn no_links(alloc: Global, parts: &mut Parts) -> Result<(), AllocError>
    ensures { OnOk result (actions.act_no_links parts.old ≡ Some parts.new) }
{
    parts.push(Part::Links(List::new(alloc)))
}

pub fn shifts(alloc: Global, parts: &mut Parts) -> Result<(), AllocError>
    requires { IsTrue (is_some (actions.act_shifts parts.old)) }
    ensures { OnOk result (actions.act_shifts parts.old ≡ Some parts.new) }
{
    let first = parts.pop_expr();
    let moves = parts.pop_shifts();
    let moves = in_order(alloc, moves)?;
    parts.push(Part::Expr(shifted(alloc, first, moves)?))
}

pub fn add_shift(kind: ShiftKind, parts: &mut Parts) -> Result<(), AllocError>
    requires { IsTrue (is_some (actions.act_add_shift kind parts.old)) }
    ensures { OnOk result (actions.act_add_shift kind parts.old ≡ Some parts.new) }
{
    let place = parts.pop_mark();
    let amount = parts.pop_index();
    let mut moves = parts.pop_shifts();
    moves.push(ShiftLink {
        kind,
        place,
        amount,
    })?;
    parts.push(Part::Shifts(moves))
}

pub fn no_shifts(alloc: Global, parts: &mut Parts) -> Result<(), AllocError>
    ensures { OnOk result (actions.act_no_shifts parts.old ≡ Some parts.new) }
{
    parts.push(Part::Shifts(List::new(alloc)))
}

pub fn not(alloc: Global, parts: &mut Parts) -> Result<(), AllocError>
    requires { IsTrue (is_some (actions.act_not parts.old)) }
    ensures { OnOk result (actions.act_not parts.old ≡ Some parts.new) }
{
    let place = parts.pop_mark();
    let inner = parts.pop_expr();
    let inner = Boxed::new(alloc, inner)?;
    parts.push(Part::Expr(Expr::Not { place, inner }))
}

pub fn number_expr(parts: &mut Parts) -> Result<(), AllocError>
    requires { IsTrue (is_some (actions.act_number_expr parts.old)) }
    ensures { OnOk result (actions.act_number_expr parts.old ≡ Some parts.new) }
{
    let Numeral { place, value } = parts.pop_number();
    parts.push(Part::Expr(Expr::Number { place, value }))
}

pub fn name_expr(alloc: Global, parts: &mut Parts) -> Result<(), AllocError>
    requires { IsTrue (is_some (actions.act_name_expr parts.old)) }
    ensures { OnOk result (actions.act_name_expr parts.old ≡ Some parts.new) }
{
    let name = parts.pop_word();
    let expr = match parts.pop() {
        Part::Exprs(args) => Expr::Call {
            name,
            args: in_order(alloc, args)?,
        },
        Part::Picks(picks) => Expr::Spot(Spot {
            name,
            picks: in_order(alloc, picks)?,
        }),
        _ => unreachable!(),
    };
    parts.push(Part::Expr(expr))
}

pub fn refresh(alloc: Global, parts: &mut Parts) -> Result<(), AllocError>
    requires { IsTrue (is_some (actions.act_refresh parts.old)) }
    ensures { OnOk result (actions.act_refresh parts.old ≡ Some parts.new) }
{
    let place = parts.pop_mark();
    let (inner, number) = parts.pop_refreshed();
    let inner = Boxed::new(alloc, inner)?;
    parts.push(Part::Expr(Expr::Refresh {
        place,
        inner,
        number,
    }))
}

pub fn tuple(alloc: Global, parts: &mut Parts) -> Result<(), AllocError>
    requires { IsTrue (is_some (actions.act_tuple parts.old)) }
    ensures { OnOk result (actions.act_tuple parts.old ≡ Some parts.new) }
{
    let exprs = parts.pop_exprs();
    parts.push(Part::Expr(Expr::Tuple(in_order(alloc, exprs)?)))
}

pub fn add_expr(parts: &mut Parts) -> Result<(), AllocError>
    requires { IsTrue (is_some (actions.act_add_expr parts.old)) }
    ensures { OnOk result (actions.act_add_expr parts.old ≡ Some parts.new) }
{
    let item = parts.pop_expr();
    let mut items = parts.pop_exprs();
    items.push(item)?;
    parts.push(Part::Exprs(items))
}

pub fn no_exprs(alloc: Global, parts: &mut Parts) -> Result<(), AllocError>
    ensures { OnOk result (actions.act_no_exprs parts.old ≡ Some parts.new) }
{
    parts.push(Part::Exprs(List::new(alloc)))
}

pub fn refresh_args(parts: &mut Parts) -> Result<(), AllocError>
    requires { IsTrue (is_some (actions.act_refresh_args parts.old)) }
    ensures { OnOk result (actions.act_refresh_args parts.old ≡ Some parts.new) }
{
    parts.pop_mark();
    let inner = parts.pop_expr();
    parts.pop_mark();
    let number = parts.pop_index();
    parts.pop_mark();
    parts.push(Part::Refreshed(inner, number))
}

fn chained(alloc: Global, op: BitOp, first: Expr, rest: List<Link>) -> Result<Expr, AllocError>
    ensures { IfOk result (λ expr. expr ≡ actions.chained op first rest) }
{
    if rest.is_empty() {
        return Ok(first);
    }
    let first = Boxed::new(alloc, first)?;
    Ok(Expr::Chain { op, first, rest })
}

fn shifted(alloc: Global, first: Expr, moves: List<ShiftLink>) -> Result<Expr, AllocError>
    ensures { IfOk result (λ expr. expr ≡ actions.shifted first moves) }
{
    if moves.is_empty() {
        return Ok(first);
    }
    let first = Boxed::new(alloc, first)?;
    Ok(Expr::Shift { first, moves })
}
