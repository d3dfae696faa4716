//! The actions of definitions and declarations.

ghost use Rattle.std.specs.Prelude.{◌≡◌, IfOk, IsTrue, OnOk, is_some, reverse};
ghost use Rattle.usuba_parts.specs.Bases as bases;
ghost use Rattle.usuba_parts.specs.DeclarationActions as actions;

use crate::lists::in_order;
use crate::part::{Part, Parts};
use std::alloc::{AllocError, Global};
use tor_edge::{List, Place};
use usuba_tokens::TypeWord;
use usuba_trees::{Base, Decl, Def, File, Grid, Item, Node, Shape, Word};

pub fn finish(alloc: Global, parts: &mut Parts) -> Result<(), AllocError>
    requires { IsTrue (is_some (actions.act_finish parts.old)) }
    ensures { OnOk result (actions.act_finish parts.old ≡ Some parts.new) }
{
    let defs = parts.pop_defs();
    parts.push(Part::File(File {
        defs: in_order(alloc, defs)?,
    }))
}

pub fn add_def(parts: &mut Parts) -> Result<(), AllocError>
    requires { IsTrue (is_some (actions.act_add_def parts.old)) }
    ensures { OnOk result (actions.act_add_def parts.old ≡ Some parts.new) }
{
    let item = parts.pop_def();
    let mut items = parts.pop_defs();
    items.push(item)?;
    parts.push(Part::Defs(items))
}

pub fn no_defs(alloc: Global, parts: &mut Parts) -> Result<(), AllocError>
    ensures { OnOk result (actions.act_no_defs parts.old ≡ Some parts.new) }
{
    parts.push(Part::Defs(List::new(alloc)))
}

pub fn node(alloc: Global, parts: &mut Parts) -> Result<(), AllocError>
    requires { IsTrue (is_some (actions.act_node parts.old)) }
    ensures { OnOk result (actions.act_node parts.old ≡ Some parts.new) }
{
    parts.pop_mark();
    let name = parts.pop_word();
    parts.pop_mark();
    let inputs = parts.pop_decls();
    parts.pop_mark();
    parts.pop_mark();
    let outputs = parts.pop_decls();
    let locals = parts.pop_decls();
    parts.pop_mark();
    let items = parts.pop_items();
    parts.pop_mark();
    parts.push(Part::Def(Def::Node(node_of(alloc, name, inputs, outputs, locals, items)?)))
}

pub fn table(parts: &mut Parts) -> Result<(), AllocError>
    requires { IsTrue (is_some (actions.act_table parts.old)) }
    ensures { OnOk result (actions.act_table parts.old ≡ Some parts.new) }
{
    parts.pop_mark();
    let grid = parts.pop_grid();
    parts.push(Part::Def(Def::Table(grid)))
}

pub fn perm(parts: &mut Parts) -> Result<(), AllocError>
    requires { IsTrue (is_some (actions.act_perm parts.old)) }
    ensures { OnOk result (actions.act_perm parts.old ≡ Some parts.new) }
{
    parts.pop_mark();
    let grid = parts.pop_grid();
    parts.push(Part::Def(Def::Perm(grid)))
}

pub fn grid(alloc: Global, parts: &mut Parts) -> Result<(), AllocError>
    requires { IsTrue (is_some (actions.act_grid parts.old)) }
    ensures { OnOk result (actions.act_grid parts.old ≡ Some parts.new) }
{
    let name = parts.pop_word();
    parts.pop_mark();
    let inputs = parts.pop_decls();
    parts.pop_mark();
    parts.pop_mark();
    let outputs = parts.pop_decls();
    parts.pop_mark();
    let entries = parts.pop_numbers();
    parts.pop_mark();
    parts.push(Part::Grid(grid_of(alloc, name, inputs, outputs, entries)?))
}

pub fn add_number(parts: &mut Parts) -> Result<(), AllocError>
    requires { IsTrue (is_some (actions.act_add_number parts.old)) }
    ensures { OnOk result (actions.act_add_number parts.old ≡ Some parts.new) }
{
    let item = parts.pop_number().value;
    let mut items = parts.pop_numbers();
    items.push(item)?;
    parts.push(Part::Numbers(items))
}

pub fn no_numbers(alloc: Global, parts: &mut Parts) -> Result<(), AllocError>
    ensures { OnOk result (actions.act_no_numbers parts.old ≡ Some parts.new) }
{
    parts.push(Part::Numbers(List::new(alloc)))
}

pub fn no_decls(alloc: Global, parts: &mut Parts) -> Result<(), AllocError>
    ensures { OnOk result (actions.act_no_decls parts.old ≡ Some parts.new) }
{
    parts.push(Part::Decls(List::new(alloc)))
}

pub fn join_decls(parts: &mut Parts) -> Result<(), AllocError>
    requires { IsTrue (is_some (actions.act_join_decls parts.old)) }
    ensures { OnOk result (actions.act_join_decls parts.old ≡ Some parts.new) }
{
    let decls = parts.pop_decls();
    let mut more = parts.pop_decls();
    more.append(decls)?;
    parts.push(Part::Decls(more))
}

pub fn declare(parts: &mut Parts) -> Result<(), AllocError>
    requires { IsTrue (is_some (actions.act_declare parts.old)) }
    ensures { OnOk result (actions.act_declare parts.old ≡ Some parts.new) }
{
    let name = parts.pop_word();
    let (shape, mut decls) = parts.pop_group();
    decls.push(Decl { name, shape })?;
    parts.push(Part::Decls(decls))
}

pub fn declare_alike(alloc: Global, parts: &mut Parts) -> Result<(), AllocError>
    requires { IsTrue (is_some (actions.act_declare_alike parts.old)) }
    ensures { OnOk result (actions.act_declare_alike parts.old ≡ Some parts.new) }
{
    parts.pop_mark();
    let name = parts.pop_word();
    let (shape, mut decls) = parts.pop_group();
    decls.push(Decl {
        name,
        shape: copy_of(alloc, &shape)?,
    })?;
    parts.push(Part::Group(shape, decls))
}

pub fn group(alloc: Global, parts: &mut Parts) -> Result<(), AllocError>
    requires { IsTrue (is_some (actions.act_group parts.old)) }
    ensures { OnOk result (actions.act_group parts.old ≡ Some parts.new) }
{
    parts.pop_mark();
    let shape = parts.pop_shape();
    parts.push(Part::Group(shape, List::new(alloc)))
}

pub fn shape(alloc: Global, parts: &mut Parts) -> Result<(), AllocError>
    requires { IsTrue (is_some (actions.act_shape parts.old)) }
    ensures { OnOk result (actions.act_shape parts.old ≡ Some parts.new) }
{
    let (word, place) = parts.pop_type_word();
    let dims = parts.pop_numbers();
    parts.push(Part::Shape(shape_of(alloc, word, place, dims)?))
}

pub fn add_dim(parts: &mut Parts) -> Result<(), AllocError>
    requires { IsTrue (is_some (actions.act_add_dim parts.old)) }
    ensures { OnOk result (actions.act_add_dim parts.old ≡ Some parts.new) }
{
    parts.pop_mark();
    let number = parts.pop_number().value;
    parts.pop_mark();
    let mut numbers = parts.pop_numbers();
    numbers.push(number)?;
    parts.push(Part::Numbers(numbers))
}

fn node_of(
    alloc: Global,
    name: Word,
    inputs: List<Decl>,
    outputs: List<Decl>,
    locals: List<Decl>,
    items: List<Item>,
) -> Result<Node, AllocError>
    ensures { IfOk result (λ node. node ≡ record {
      name = name;
      inputs = reverse inputs;
      outputs = reverse outputs;
      locals = reverse locals;
      items = reverse items;
    }) }
{
    Ok(Node {
        name,
        inputs: in_order(alloc, inputs)?,
        outputs: in_order(alloc, outputs)?,
        locals: in_order(alloc, locals)?,
        items: in_order(alloc, items)?,
    })
}

fn grid_of(
    alloc: Global,
    name: Word,
    inputs: List<Decl>,
    outputs: List<Decl>,
    entries: List<u64>,
) -> Result<Grid, AllocError>
    ensures { IfOk result (λ grid. grid ≡ record {
      name = name;
      inputs = reverse inputs;
      outputs = reverse outputs;
      entries = reverse entries;
    }) }
{
    Ok(Grid {
        name,
        inputs: in_order(alloc, inputs)?,
        outputs: in_order(alloc, outputs)?,
        entries: in_order(alloc, entries)?,
    })
}

fn base_of(base: usuba_tokens::Base) -> Base
    ensures { result ≡ bases.base_of base }
{
    match base {
        usuba_tokens::Base::Poly => Base::Poly,
        usuba_tokens::Base::Bits(bits) => Base::Bits(bits),
    }
}

fn count_of(count: Option<u32>) -> Option<u64>
    ensures { result ≡ count }
{
    match count {
        Some(count) => Some(u64::from(count)),
        None => None,
    }
}

fn shape_of(
    alloc: Global,
    word: TypeWord,
    place: Place,
    dims: List<u64>,
) -> Result<Shape, AllocError>
    ensures { IfOk result (λ shape. shape ≡ record {
      base = bases.base_of word.base;
      count = word.count;
      dims = reverse dims;
      place = place;
    }) }
{
    Ok(Shape {
        base: base_of(word.base),
        count: count_of(word.count),
        dims: in_order(alloc, dims)?,
        place,
    })
}

fn copy_of(alloc: Global, shape: &Shape) -> Result<Shape, AllocError>
    ensures { IfOk result (λ copy. copy ≡ shape.now) }
{
    Ok(Shape {
        base: shape.base,
        count: shape.count,
        dims: List::from_slice(alloc, shape.dims.as_slice())?,
        place: shape.place,
    })
}
