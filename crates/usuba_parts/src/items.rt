//! The actions of items.

ghost use Rattle.std.specs.Prelude.{◌≡◌, IsTrue, OnOk, is_some};
ghost use Rattle.usuba_parts.specs.ItemActions as actions;

use crate::lists::in_order;
use crate::part::{Part, Parts};
use std::alloc::{AllocError, Global};
use tor_edge::List;
use usuba_trees::{Equation, Item, Loop};

pub fn add_item(parts: &mut Parts) -> Result<(), AllocError>
    requires { IsTrue (is_some (actions.act_add_item parts.old)) }
    ensures { OnOk result (actions.act_add_item parts.old ≡ Some parts.new) }
{
    let item = parts.pop_item();
    let mut items = parts.pop_items();
    items.push(item)?;
    parts.push(Part::Items(items))
}

pub fn no_items(alloc: Global, parts: &mut Parts) -> Result<(), AllocError>
    ensures { OnOk result (actions.act_no_items parts.old ≡ Some parts.new) }
{
    parts.push(Part::Items(List::new(alloc)))
}

pub fn loop_item(alloc: Global, parts: &mut Parts) -> Result<(), AllocError>
    requires { IsTrue (is_some (actions.act_loop parts.old)) }
    ensures { OnOk result (actions.act_loop parts.old ≡ Some parts.new) }
{
    let place = parts.pop_mark();
    let counter = parts.pop_word();
    parts.pop_word();
    let (low, high) = parts.pop_bounds();
    let items = parts.pop_items();
    let items = in_order(alloc, items)?;
    parts.push(Part::Item(Item::Loop(Loop {
        place,
        counter,
        low,
        high,
        items,
    })))
}

pub fn bounds(parts: &mut Parts) -> Result<(), AllocError>
    requires { IsTrue (is_some (actions.act_bounds parts.old)) }
    ensures { OnOk result (actions.act_bounds parts.old ≡ Some parts.new) }
{
    parts.pop_mark();
    let low = parts.pop_index();
    parts.pop_mark();
    let high = parts.pop_index();
    parts.pop_mark();
    parts.push(Part::Bounds(low, high))
}

pub fn equation(alloc: Global, parts: &mut Parts) -> Result<(), AllocError>
    requires { IsTrue (is_some (actions.act_equation parts.old)) }
    ensures { OnOk result (actions.act_equation parts.old ≡ Some parts.new) }
{
    let left = parts.pop_spots();
    let equal = parts.pop_mark();
    let right = parts.pop_expr();
    let left = in_order(alloc, left)?;
    parts.push(Part::Item(Item::Equation(Equation { left, equal, right })))
}

pub fn one_spot(alloc: Global, parts: &mut Parts) -> Result<(), AllocError>
    requires { IsTrue (is_some (actions.act_one_spot parts.old)) }
    ensures { OnOk result (actions.act_one_spot parts.old ≡ Some parts.new) }
{
    let spot = parts.pop_spot();
    let mut spots = List::new(alloc);
    spots.push(spot)?;
    parts.push(Part::Spots(spots))
}

pub fn add_spot(parts: &mut Parts) -> Result<(), AllocError>
    requires { IsTrue (is_some (actions.act_add_spot parts.old)) }
    ensures { OnOk result (actions.act_add_spot parts.old ≡ Some parts.new) }
{
    let item = parts.pop_spot();
    let mut items = parts.pop_spots();
    items.push(item)?;
    parts.push(Part::Spots(items))
}

pub fn no_spots(alloc: Global, parts: &mut Parts) -> Result<(), AllocError>
    ensures { OnOk result (actions.act_no_spots parts.old ≡ Some parts.new) }
{
    parts.push(Part::Spots(List::new(alloc)))
}
