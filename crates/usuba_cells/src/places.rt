// Where declared variables begin among the numbered cells, found by their names.
ghost use Rattle.std.specs.Prelude.{◌≡◌, ◌+◌, ◌≤◌, ℕ, List, Some, IfOk, OnOk, bytes_eq, if◌then◌else◌};
ghost use Rattle.std.specs.Option.{option_or};
ghost use Rattle.usuba_model.specs.Shapes.{sizes as sizes_of_shape, elements as elements_of, all_elements};
ghost use Rattle.usuba_model.specs.Walk.{most_operations};
ghost use Rattle.usuba_cells.specs.State.Places.{place_at, place_of, place_in};

use crate::counting::elements;
use std::alloc::{AllocError, Global};
use std::collections::HashMap;
use tor_edge::List;
use usuba_trees::{Decl, Shape};

/// The number of a variable's first element, and its sizes.
#[derive(Drop)]
pub struct Variable {
    pub first: u32,
    pub sizes: List<u64>,
}

/// The first declared variable of each name.
pub type Places<'a> = HashMap<&'a str, Variable>;

fn sizes_of(alloc: Global, shape: &Shape) -> Result<List<u64>, AllocError>
    ensures { IfOk result (λ sizes. sizes ≡ sizes_of_shape shape.now) }
{
    let mut sizes = List::from_slice(alloc, shape.dims.as_slice())?;
    if let Some(count) = shape.count {
        sizes.push(count)?;
    }
    Ok(sizes)
}

// Keeps a variable under a name that has none yet.
fn keep<'a>(places: &mut Places<'a>, name: &'a str, variable: Variable) -> Result<(), AllocError>
    ensures { OnOk result ((other : List ℕ) → place_at places.new other
        ≡ (if bytes_eq name.now other then Some variable else place_at places.old other)) }
{
    match places.insert(name, variable) {
        Ok(_) => Ok(()),
        Err(_) => Err(AllocError),
    }
}

// Declares a variable, if its name has none yet.
fn declare_one<'a>(
    alloc: Global,
    places: &mut Places<'a>,
    first: u32,
    declaration: &'a Decl,
) -> Result<(), AllocError>
    ensures { OnOk result ((name : List ℕ) → place_at places.new name
        ≡ option_or (place_at places.old name) (place_of first declaration.now name)) }
{
    let name = declaration.name.text.as_str();
    if places.contains_key(name) {
        return Ok(());
    }
    let sizes = sizes_of(alloc, &declaration.shape)?;
    keep(places, name, Variable { first, sizes })
}

/// Declares variables, the first of which begins at `first`. Answers where one after them would begin.
pub fn declare<'a>(
    alloc: Global,
    places: &mut Places<'a>,
    first: u32,
    declarations: &'a [Decl],
) -> Result<u32, AllocError>
    requires { first + all_elements declarations.now ≤ most_operations }
    ensures places { OnOk result ((name : List ℕ) → place_at places.new name
        ≡ option_or (place_at places.old name) (place_in first declarations.now name)) }
    ensures next { IfOk result (λ next. next ≡ first + all_elements declarations.now) }
{
    let mut next = first;
    for declaration in declarations {
        declare_one(alloc, places, next, declaration)?;
        next += elements(&declaration.shape) as u32;
    }
    Ok(next)
}
