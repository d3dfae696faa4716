ghost use Rattle.std.specs.Prelude.{◌≡◌, ◌<◌, ◌≤◌, ◌++◌, ◌∷◌, [], length, take, slice_range, OnOk, IsTrue, ◌↔◌};
ghost use Rattle.usuba_code.specs.Code.{coded_at, assigned_at};
ghost use Rattle.usuba_code.specs.State.Flat.{last_cell, last_ends, no_ends};

use crate::operation::Operation;
use std::alloc::{AllocError, Global};
use std::marker::Model;
use tor_edge::Place;

// A left side: where its name stands, and where its cells end.
#[derive(Clone, Copy, Drop)]
pub struct Left {
    pub place: Place,
    pub end: usize,
}

// Where the left sides and the code of an instance end.
#[derive(Clone, Copy, Drop)]
pub struct Ends {
    pub lefts: usize,
    pub code: usize,
}

/// The equation instances of a node over numbered cells, built piece by piece: of each its left sides with their cells,
/// and its operations.
#[derive(Drop)]
pub struct Table {
    lefts: Vec<Left>,
    cells: Vec<u32>,
    code: Vec<Operation>,
    instances: Vec<Ends>,
}

impl Model for Table {
    ghost use Rattle.usuba_code.specs.Code.{Built};

    ghost Value = { Built };

    ghost use Rattle.usuba_code.specs.State.Flat.{built, IsFlat};

    ghost view = { λ t. built t.lefts.items t.cells.items t.code.items t.instances.items };

    ghost invariant = { λ t. IsFlat t.lefts.items t.cells.items t.code.items t.instances.items };
}

// Where the cells of the first so many left sides end.
fn cells_before(lefts: &[Left], count: usize) -> usize
    requires { count ≤ length lefts.now }
    ensures { result ≡ last_cell 0 (take count lefts.now) }
{
    match count.checked_sub(1) {
        Some(last) => lefts[last].end,
        None => 0,
    }
}

// Where the first so many instances end.
fn ends_before(instances: &[Ends], count: usize) -> Ends
    requires { count ≤ length instances.now }
    ensures { result ≡ last_ends no_ends (take count instances.now) }
{
    match count.checked_sub(1) {
        Some(last) => instances[last],
        None => Ends { lefts: 0, code: 0 },
    }
}

// The operations between two ends.
fn code_between(code: &[Operation], from: usize, to: usize) -> &[Operation]
    requires rise { from ≤ to }
    requires within { to ≤ length code.now }
    ensures { result.now ≡ slice_range code.now from to }
{
    &code[from..to]
}

// The cells between two ends.
fn cells_between(cells: &[u32], from: usize, to: usize) -> &[u32]
    requires rise { from ≤ to }
    requires within { to ≤ length cells.now }
    ensures { result.now ≡ slice_range cells.now from to }
{
    &cells[from..to]
}

impl Table {
    /// A table without instances. It takes no memory.
    pub fn new(alloc: Global) -> Table
        ensures { result ≡ record { done = []; targets = []; cells = []; code = [] } }
    {
        Table {
            lefts: Vec::new(alloc),
            cells: Vec::new(alloc),
            code: Vec::new(alloc),
            instances: Vec::new(alloc),
        }
    }

    /// One more cell of the left side that is being read.
    pub fn push_cell(&mut self, cell: u32) -> Result<(), AllocError>
        ensures { OnOk result (self.new ≡ record self.old { cells = self.old.cells ++ cell ∷ [] }) }
    {
        self.cells.push(cell)?;
        Ok(())
    }

    /// The left side that is being read is whole; its name stands at this place.
    pub fn end_target(&mut self, place: Place) -> Result<(), AllocError>
        ensures { OnOk result (self.new ≡ record self.old {
          targets = self.old.targets ++ record { place = place; cells = self.old.cells } ∷ [];
          cells = [];
        }) }
    {
        let end = self.cells.len();
        self.lefts.push(Left { place, end })?;
        Ok(())
    }

    /// One more operation of the instance that is being built.
    pub fn push_operation(&mut self, operation: Operation) -> Result<(), AllocError>
        ensures { OnOk result (self.new ≡ record self.old { code = self.old.code ++ operation ∷ [] }) }
    {
        self.code.push(operation)?;
        Ok(())
    }

    /// The instance that is being built is whole. Cells of no whole left side stay for the next one.
    pub fn end_instance(&mut self) -> Result<(), AllocError>
        ensures { OnOk result (self.new ≡ record self.old {
          done = self.old.done ++ record { targets = self.old.targets; code = self.old.code } ∷ [];
          targets = [];
          code = [];
        }) }
    {
        let lefts = self.lefts.len();
        let code = self.code.len();
        self.instances.push(Ends { lefts, code })?;
        Ok(())
    }

    /// How many instances are whole.
    pub fn len(&self) -> usize
        ensures { result ≡ length self.now.done }
    {
        self.instances.len()
    }

    pub fn is_empty(&self) -> bool
        ensures { IsTrue result ↔ (self.now.done ≡ []) }
    {
        self.instances.is_empty()
    }

    /// The operations of instance `k`.
    pub fn operations(&self, k: usize) -> &[Operation]
        requires { k < length self.now.done }
        ensures { result.now ≡ (coded_at self.now.done k).code }
    {
        let from = ends_before(&self.instances, k);
        let to = self.instances[k];
        code_between(&self.code, from.code, to.code)
    }

    /// How many left sides instance `k` has.
    pub fn targets(&self, k: usize) -> usize
        requires { k < length self.now.done }
        ensures { result ≡ length (coded_at self.now.done k).targets }
    {
        let from = ends_before(&self.instances, k);
        let to = self.instances[k];
        to.lefts - from.lefts
    }

    /// Where the name of left side `j` of instance `k` stands.
    pub fn place(&self, k: usize, j: usize) -> Place
        requires instance { k < length self.now.done }
        requires target { j < length (coded_at self.now.done k).targets }
        ensures { result ≡ (assigned_at (coded_at self.now.done k).targets j).place }
    {
        let at = ends_before(&self.instances, k).lefts + j;
        self.lefts[at].place
    }

    /// The numbers of the cells of left side `j` of instance `k`.
    pub fn cells(&self, k: usize, j: usize) -> &[u32]
        requires instance { k < length self.now.done }
        requires target { j < length (coded_at self.now.done k).targets }
        ensures { result.now ≡ (assigned_at (coded_at self.now.done k).targets j).cells }
    {
        let at = ends_before(&self.instances, k).lefts + j;
        let from = cells_before(&self.lefts, at);
        let to = self.lefts[at].end;
        cells_between(&self.cells, from, to)
    }
}
