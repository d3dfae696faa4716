ghost use Rattle.std.specs.Prelude.{◌≡◌, ◌≢◌, ◌<◌, ◌≤◌, ℕ, length, slice_get, Some, All, IfOk, IfSome, MatchOption};
ghost use Rattle.std.specs.Option.{option_copied, option_map};
ghost use Rattle.span_model.specs.Columns.{sets_of};
ghost use Rattle.span_model.specs.Closure.{operand as operand_sets, co_operand as co_operand_sets};
ghost use Rattle.linear_view.specs.Sides.{co_operand, operand_rows, rows_on, step_of};
ghost use Rattle.linear_view.specs.View.{IsView, AreOperands, HasRows, operands_of, products_of};

use crate::alike::alike_operands;
use crate::column::Column;
use crate::operand::{Operand, Side};
use crate::shared_rows::SharedRows;
use gf2_span::BitRow;
use indexmap::IndexSet;
use std::alloc::{AllocError, Global};
use std::marker::Model;
use tor_edge::List;

/// The rows of both operands of a product, which other operands may share.
#[derive(Drop)]
pub struct Pair {
    left: SharedRows,
    right: SharedRows,
}

/// The columns of a circuit, and the rows of the operands of its products.
#[derive(Drop)]
pub struct View {
    columns: IndexSet<Column>,
    products: Vec<Pair>,
    // by place: an operand with the same rows
    alike: Vec<Operand>,
}

impl Model for Pair {
    ghost use Rattle.linear_view.specs.View.{Operands};

    ghost Value = { Operands };

    ghost view = { λ pair. record { left = pair.left; right = pair.right } };
}

impl Model for View {
    ghost use Rattle.linear_view.specs.View.{LinearView, IsView};
    ghost use Rattle.linear_view.specs.Alike.{AreAlike};

    ghost Value = { LinearView };

    ghost view = { λ view. record { columns = view.columns.keys; products = view.products.items } };

    ghost invariant = { λ view. IsView (record { columns = view.columns.keys; products = view.products.items }) × AreAlike view.products.items view.alike.items };
}

impl Pair {
    pub(crate) fn new(left: SharedRows, right: SharedRows) -> Pair
        ensures { result ≡ record { left = left; right = right } }
    {
        Pair { left, right }
    }

    pub(crate) fn left(&self) -> &SharedRows
        ensures { result.now ≡ self.now.left }
    {
        &self.left
    }

    pub(crate) fn right(&self) -> &SharedRows
        ensures { result.now ≡ self.now.right }
    {
        &self.right
    }

    // The rows of the operand on this side.
    pub(crate) fn on(&self, side: Side) -> &SharedRows
        ensures { result.now ≡ rows_on side self.now }
    {
        match side {
            Side::Left => self.left(),
            Side::Right => self.right(),
        }
    }
}

impl View {
    /// How many columns there are.
    pub fn columns(&self) -> u32
        ensures value { result ≡ length self.now.columns }
        ensures view { IsView self.now }
    {
        self.columns.len() as u32
    }

    /// The column of number `c`.
    pub fn column(&self, c: u32) -> Option<Column>
        ensures { result ≡ slice_get self.now.columns c }
    {
        self.columns.get_index(c as usize).copied()
    }

    /// The number of the column of this name.
    pub fn find(&self, column: Column) -> Option<u32>
        ensures { MatchOption result ((c : ℕ) → slice_get self.now.columns c ≢ Some column) (λ c. slice_get self.now.columns c ≡ Some column) }
    {
        let at = self.columns.get_index_of(&column)?;
        Some(at as u32)
    }

    /// How many products there are.
    pub fn products(&self) -> u32
        ensures { result ≡ length self.now.products }
    {
        self.products.len() as u32
    }

    /// The rows of the left operand of product `k`, that of bit 0 first.
    pub fn left(&self, k: u32) -> Option<&List<BitRow>>
        ensures value { option_copied result ≡ option_map (λ operands. operands.left) (slice_get self.now.products k) }
        ensures rows { IfSome result (λ rows. HasRows (length self.now.columns) rows.now) }
    {
        Some(self.products.get(k as usize)?.left().as_list())
    }

    /// The rows of the right operand of product `k`, that of bit 0 first.
    pub fn right(&self, k: u32) -> Option<&List<BitRow>>
        ensures value { option_copied result ≡ option_map (λ operands. operands.right) (slice_get self.now.products k) }
        ensures rows { IfSome result (λ rows. HasRows (length self.now.columns) rows.now) }
    {
        Some(self.products.get(k as usize)?.right().as_list())
    }

    /// The rows of an operand, that of bit 0 first.
    pub fn operand(&self, operand: Operand) -> &[BitRow]
        requires { operand.product < length self.now.products }
        ensures rows { result.now ≡ operand_rows self.now operand }
        ensures sets { sets_of result.now ≡ operand_sets (products_of self.now) (step_of operand) }
        ensures columns { HasRows (length self.now.columns) result.now }
    {
        self.shared_operand(operand).as_slice()
    }

    /// The rows of an operand, to be shared.
    pub fn shared_operand(&self, operand: Operand) -> &SharedRows
        requires { operand.product < length self.now.products }
        ensures rows { result.now ≡ operand_rows self.now operand }
        ensures sets { sets_of result.now ≡ operand_sets (products_of self.now) (step_of operand) }
        ensures columns { HasRows (length self.now.columns) result.now }
    {
        self.products[operand.product as usize].on(operand.side)
    }

    /// The rows of the operand on the other side of the same product.
    pub fn co_operand(&self, operand: Operand) -> &[BitRow]
        requires { operand.product < length self.now.products }
        ensures rows { result.now ≡ operand_rows self.now (co_operand operand) }
        ensures sets { sets_of result.now ≡ co_operand_sets (products_of self.now) (step_of operand) }
        ensures columns { HasRows (length self.now.columns) result.now }
    {
        self.operand(operand.other())
    }

    /// An operand that is known to have the same rows, the same one for all that share them.
    pub fn alike(&self, operand: Operand) -> Operand
        requires { operand.product < length self.now.products }
        ensures product { result.product < length self.now.products }
        ensures rows { operand_rows self.now result ≡ operand_rows self.now operand }
        ensures sets { operand_sets (products_of self.now) (step_of result) ≡ operand_sets (products_of self.now) (step_of operand) }
    {
        match self.alike.get(operand.place()) {
            Some(other) => *other,
            None => operand,
        }
    }

    // The view of these columns and products.
    pub(crate) fn new(
        alloc: Global,
        columns: IndexSet<Column>,
        products: Vec<Pair>,
    ) -> Result<View, AllocError>
        requires { IsView (record { columns = columns.keys; products = products.items }) }
        ensures { IfOk result (λ view. view ≡ record { columns = columns.keys; products = products.items }) }
    {
        let alike = alike_operands(alloc, products.as_slice())?;
        Ok(View {
            columns,
            products,
            alike,
        })
    }

    // The columns, in order.
    pub(crate) fn column_slice(&self) -> &[Column]
        ensures columns { result.now ≡ self.now.columns }
        ensures view { IsView self.now }
    {
        self.columns.as_slice()
    }

    // The products, in order.
    pub(crate) fn product_slice(&self) -> &[Pair]
        ensures { result.now ≡ self.now.products }
    {
        self.products.as_slice()
    }
}

/// A view with the columns of `like`, and with these left and right operands of its products.
pub fn view_with(
    alloc: Global,
    like: &View,
    left: List<List<BitRow>>,
    right: List<List<BitRow>>,
) -> Result<View, AllocError>
    requires same_count { length left ≡ length right }
    requires few { length left ≤ 32768 }
    requires operands { All (AreOperands (length like.now.columns)) (operands_of left right) }
    ensures { IfOk result (λ view. view ≡ record { columns = like.now.columns; products = operands_of left right }) }
{
    let columns = like.columns.clone()?;
    let products = pairs(alloc, left, right)?;
    View::new(alloc, columns, products)
}

// The operands of a product.
fn paired(alloc: Global, left: List<BitRow>, right: List<BitRow>) -> Result<Pair, AllocError>
    ensures { IfOk result (λ pair. pair ≡ record { left = left; right = right }) }
{
    Ok(Pair::new(
        SharedRows::new(alloc, left)?,
        SharedRows::new(alloc, right)?,
    ))
}

// The left and right operands in pairs.
fn pairs(
    alloc: Global,
    mut left: List<List<BitRow>>,
    mut right: List<List<BitRow>>,
) -> Result<Vec<Pair>, AllocError>
    requires { length left ≡ length right }
    ensures { IfOk result (λ pairs. pairs.items ≡ operands_of left right) }
{
    let mut pairs = Vec::new(alloc);
    while let Some(rows) = left.pop() {
        if let Some(others) = right.pop() {
            pairs.push(paired(alloc, rows, others)?)?;
        }
    }
    pairs.reverse();
    Ok(pairs)
}
