//! The actions of the productions: each takes the parts of a production's items off the stack, and puts what they make on it.

ghost use Rattle.std.specs.Prelude.{◌≡◌, IsTrue, OnOk};
ghost use Rattle.usuba_parts.specs.Actions as actions;

use crate::part::Parts;
use crate::{declarations, expressions, indexes, items, tokens};
use std::alloc::{AllocError, Global};
use usuba_trees::{BitOp, IndexOp, ShiftKind};

/// What is made of the parts of a production's items.
#[derive(Clone, Copy, Drop)]
pub enum Action {
    /// The part of the one item stays.
    Keep,
    /// The part behind a token stays.
    Skip,
    /// The part between two tokens stays.
    Inner,
    Finish,
    AddDef,
    NoDefs,
    Node,
    Table,
    Perm,
    Grid,
    AddNumber,
    NoNumbers,
    NoDecls,
    JoinDecls,
    Declare,
    DeclareAlike,
    Group,
    Shape,
    AddDim,
    AddItem,
    NoItems,
    Loop,
    Bounds,
    Equation,
    OneSpot,
    AddSpot,
    NoSpots,
    Spot,
    AddPick,
    NoPicks,
    Pick,
    High,
    NoHigh,
    Chain(BitOp),
    AddLink,
    NoLinks,
    Shifts,
    AddShift(ShiftKind),
    NoShifts,
    Not,
    NumberExpr,
    NameExpr,
    Refresh,
    Tuple,
    AddExpr,
    NoExprs,
    RefreshArgs,
    IndexChain,
    AddIndexLink(IndexOp),
    NoIndexLinks,
    IndexNumber,
    Counter,
    NameOfTypeWord,
}

/// Does the action on the parts on top of the stack.
pub fn act(alloc: Global, action: Action, parts: &mut Parts) -> Result<(), AllocError>
    requires { IsTrue (actions.fits action parts.old) }
    ensures { OnOk result (actions.made action parts.old ≡ Some parts.new) }
{
    match action {
        Action::Keep => Ok(()),
        Action::Skip => tokens::skip(parts),
        Action::Inner => tokens::inner(parts),
        Action::Finish => declarations::finish(alloc, parts),
        Action::AddDef => declarations::add_def(parts),
        Action::NoDefs => declarations::no_defs(alloc, parts),
        Action::Node => declarations::node(alloc, parts),
        Action::Table => declarations::table(parts),
        Action::Perm => declarations::perm(parts),
        Action::Grid => declarations::grid(alloc, parts),
        Action::AddNumber => declarations::add_number(parts),
        Action::NoNumbers => declarations::no_numbers(alloc, parts),
        Action::NoDecls => declarations::no_decls(alloc, parts),
        Action::JoinDecls => declarations::join_decls(parts),
        Action::Declare => declarations::declare(parts),
        Action::DeclareAlike => declarations::declare_alike(alloc, parts),
        Action::Group => declarations::group(alloc, parts),
        Action::Shape => declarations::shape(alloc, parts),
        Action::AddDim => declarations::add_dim(parts),
        Action::AddItem => items::add_item(parts),
        Action::NoItems => items::no_items(alloc, parts),
        Action::Loop => items::loop_item(alloc, parts),
        Action::Bounds => items::bounds(parts),
        Action::Equation => items::equation(alloc, parts),
        Action::OneSpot => items::one_spot(alloc, parts),
        Action::AddSpot => items::add_spot(parts),
        Action::NoSpots => items::no_spots(alloc, parts),
        Action::Spot => indexes::spot(alloc, parts),
        Action::AddPick => indexes::add_pick(parts),
        Action::NoPicks => indexes::no_picks(alloc, parts),
        Action::Pick => indexes::pick(parts),
        Action::High => indexes::high(parts),
        Action::NoHigh => indexes::no_high(parts),
        Action::Chain(op) => expressions::chain(alloc, op, parts),
        Action::AddLink => expressions::add_link(parts),
        Action::NoLinks => expressions::no_links(alloc, parts),
        Action::Shifts => expressions::shifts(alloc, parts),
        Action::AddShift(kind) => expressions::add_shift(kind, parts),
        Action::NoShifts => expressions::no_shifts(alloc, parts),
        Action::Not => expressions::not(alloc, parts),
        Action::NumberExpr => expressions::number_expr(parts),
        Action::NameExpr => expressions::name_expr(alloc, parts),
        Action::Refresh => expressions::refresh(alloc, parts),
        Action::Tuple => expressions::tuple(alloc, parts),
        Action::AddExpr => expressions::add_expr(parts),
        Action::NoExprs => expressions::no_exprs(alloc, parts),
        Action::RefreshArgs => expressions::refresh_args(parts),
        Action::IndexChain => indexes::index_chain(alloc, parts),
        Action::AddIndexLink(op) => indexes::add_index_link(op, parts),
        Action::NoIndexLinks => indexes::no_index_links(alloc, parts),
        Action::IndexNumber => indexes::index_number(parts),
        Action::Counter => indexes::counter(parts),
        Action::NameOfTypeWord => tokens::name_of_type_word(parts),
    }
}
