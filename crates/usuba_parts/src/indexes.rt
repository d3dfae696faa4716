//! The actions of indexes, picks and spots.

ghost use Rattle.std.specs.Prelude.{◌≡◌, IfOk, IsTrue, OnOk, is_some};
ghost use Rattle.usuba_parts.specs.IndexActions as actions;

use crate::lists::in_order;
use crate::part::{Part, Parts};
use std::alloc::{AllocError, Global};
use tor_edge::{Boxed, List};
use usuba_trees::{Index, IndexLink, IndexOp, Pick, Spot};

pub fn spot(alloc: Global, parts: &mut Parts) -> Result<(), AllocError>
    requires { IsTrue (is_some (actions.act_spot parts.old)) }
    ensures { OnOk result (actions.act_spot parts.old ≡ Some parts.new) }
{
    let name = parts.pop_word();
    let picks = parts.pop_picks();
    parts.push(Part::Spot(Spot {
        name,
        picks: in_order(alloc, picks)?,
    }))
}

pub fn add_pick(parts: &mut Parts) -> Result<(), AllocError>
    requires { IsTrue (is_some (actions.act_add_pick parts.old)) }
    ensures { OnOk result (actions.act_add_pick parts.old ≡ Some parts.new) }
{
    let item = parts.pop_pick();
    let mut items = parts.pop_picks();
    items.push(item)?;
    parts.push(Part::Picks(items))
}

pub fn no_picks(alloc: Global, parts: &mut Parts) -> Result<(), AllocError>
    ensures { OnOk result (actions.act_no_picks parts.old ≡ Some parts.new) }
{
    parts.push(Part::Picks(List::new(alloc)))
}

pub fn pick(parts: &mut Parts) -> Result<(), AllocError>
    requires { IsTrue (is_some (actions.act_pick parts.old)) }
    ensures { OnOk result (actions.act_pick parts.old ≡ Some parts.new) }
{
    parts.pop_mark();
    let low = parts.pop_index();
    let high = parts.pop_high();
    parts.pop_mark();
    parts.push(Part::Pick(pick_of(low, high)))
}

pub fn high(parts: &mut Parts) -> Result<(), AllocError>
    requires { IsTrue (is_some (actions.act_high parts.old)) }
    ensures { OnOk result (actions.act_high parts.old ≡ Some parts.new) }
{
    parts.pop_mark();
    let index = parts.pop_index();
    parts.push(Part::High(Some(index)))
}

pub fn no_high(parts: &mut Parts) -> Result<(), AllocError>
    ensures { OnOk result (actions.act_no_high parts.old ≡ Some parts.new) }
{
    parts.push(Part::High(None))
}

pub fn index_chain(alloc: Global, parts: &mut Parts) -> Result<(), AllocError>
    requires { IsTrue (is_some (actions.act_index_chain parts.old)) }
    ensures { OnOk result (actions.act_index_chain parts.old ≡ Some parts.new) }
{
    let first = parts.pop_index();
    let rest = parts.pop_index_links();
    let rest = in_order(alloc, rest)?;
    parts.push(Part::Index(index_chained(alloc, first, rest)?))
}

pub fn add_index_link(op: IndexOp, parts: &mut Parts) -> Result<(), AllocError>
    requires { IsTrue (is_some (actions.act_add_index_link op parts.old)) }
    ensures { OnOk result (actions.act_add_index_link op parts.old ≡ Some parts.new) }
{
    parts.pop_mark();
    let operand = parts.pop_index();
    let mut links = parts.pop_index_links();
    links.push(IndexLink { op, operand })?;
    parts.push(Part::IndexLinks(links))
}

pub fn no_index_links(alloc: Global, parts: &mut Parts) -> Result<(), AllocError>
    ensures { OnOk result (actions.act_no_index_links parts.old ≡ Some parts.new) }
{
    parts.push(Part::IndexLinks(List::new(alloc)))
}

pub fn index_number(parts: &mut Parts) -> Result<(), AllocError>
    requires { IsTrue (is_some (actions.act_index_number parts.old)) }
    ensures { OnOk result (actions.act_index_number parts.old ≡ Some parts.new) }
{
    let number = parts.pop_number().value;
    parts.push(Part::Index(Index::Number(number)))
}

pub fn counter(parts: &mut Parts) -> Result<(), AllocError>
    requires { IsTrue (is_some (actions.act_counter parts.old)) }
    ensures { OnOk result (actions.act_counter parts.old ≡ Some parts.new) }
{
    let word = parts.pop_word();
    parts.push(Part::Index(Index::Counter(word)))
}

fn pick_of(low: Index, high: Option<Index>) -> Pick
    ensures { result ≡ actions.pick_of low high }
{
    match high {
        None => Pick::One(low),
        Some(high) => Pick::Range(low, high),
    }
}

fn index_chained(alloc: Global, first: Index, rest: List<IndexLink>) -> Result<Index, AllocError>
    ensures { IfOk result (λ index. index ≡ actions.index_chained first rest) }
{
    if rest.is_empty() {
        return Ok(first);
    }
    let first = Boxed::new(alloc, first)?;
    Ok(Index::Chain { first, rest })
}
