ghost use Rattle.std.specs.Prelude.{◌≡◌, ◌<◌, ◌≤◌, ◌+◌, ℕ, [], suc, List, length, slice_index_or, IfOk, OnOk, MatchBool, if◌then◌else◌};
ghost use Rattle.span_model.specs.Columns.{Columns};
ghost use Rattle.span_model.specs.Span.{SameSpan};
ghost use Rattle.span_model.specs.Attack.{Product, product_at};
ghost use Rattle.span_model.specs.Refresh.{left_out};
ghost use Rattle.linear_view.specs.View.{products_of};
ghost use Rattle.tightprove.specs.Classes.{class_at, class_rows, AreClasses, AreByLead, AreClassesOf, AreStepsOf, IsGathered, IsClean, IsLeakOf};
ghost use Rattle.tightprove.specs.Growth.{AreKnown};
ghost use Rattle.tightprove.specs.Private.Gathered.{marks_of, beyond, place_at, rows_in, IsPlaceOf, IsGatheredOf, IsReady, KeepsRows, HasSameRows};

use crate::class::Class;
use crate::classes::{Classes, add_partner, empty_lanes, place, place_span};
use crate::cosets::leak_in;
use crate::images::{Images, images_of};
use crate::known::Known;
use linear_view::{Operand, Side, View};
use std::alloc::{AllocError, Global};
use tor_edge::List;

/// The classes of the two operands of a product.
#[derive(Clone, Copy, Drop)]
pub(crate) struct Place {
    pub(crate) left: usize,
    pub(crate) right: usize,
}

/// The operands of a view's products in classes, for searches in which some of the products are left out.
#[derive(Drop)]
pub(crate) struct Gathered {
    pub(crate) classes: Classes,
    // by product
    pub(crate) places: Vec<Place>,
    // the class with no member but the empty set, of the operands of products that are left out
    pub(crate) bare: usize,
    pub(crate) images: Option<Images>,
}

// The place of product k of a view, whose operands are gathered.
fn placed(
    alloc: Global,
    view: &View,
    k: u32,
    list: &mut Vec<Class>,
    by_lead: &mut Vec<List<usize>>,
    by_row: &mut Vec<List<usize>>,
) -> Result<Place, AllocError>
    requires k { k < length view.now.products }
    requires classes { AreClasses (length view.now.columns) list.old.items }
    requires by_lead { AreByLead list.old.items by_lead.old.items }
    requires width { length by_lead.old.items ≡ length view.now.columns }
    ensures place { IfOk result (λ place. IsPlaceOf list.new.items place (product_at (products_of view.now) k)) }
    ensures few { OnOk result (length list.new.items ≤ length list.old.items + 2) }
    ensures kept { OnOk result (KeepsRows list.old.items list.new.items) }
    ensures classes { OnOk result (AreClasses (length view.now.columns) list.new.items) }
    ensures by_lead { OnOk result (AreByLead list.new.items by_lead.new.items) }
    ensures width { length by_lead.new.items ≡ length view.now.columns }
{
    let columns = view.columns();
    let left_rows = view.shared_operand(Operand {
        product: k,
        side: Side::Left,
    });
    let right_rows = view.shared_operand(Operand {
        product: k,
        side: Side::Right,
    });
    let left = place(alloc, columns, list, by_lead, by_row, left_rows)?;
    let right = place(alloc, columns, list, by_lead, by_row, right_rows)?;
    Ok(Place { left, right })
}

// The class of no rows.
fn place_bare(
    alloc: Global,
    columns: u32,
    list: &mut Vec<Class>,
    by_lead: &mut Vec<List<usize>>,
) -> Result<usize, AllocError>
    requires none { list.old.items ≡ [] }
    requires by_lead { AreByLead [] by_lead.old.items }
    requires width { length by_lead.old.items ≡ columns }
    ensures number { IfOk result (λ i. (i < length list.new.items) × SameSpan (class_rows list.new.items i) []) }
    ensures few { OnOk result (length list.new.items ≤ 1) }
    ensures classes { OnOk result (AreClasses columns list.new.items) }
    ensures by_lead { OnOk result (AreByLead list.new.items by_lead.new.items) }
    ensures width { length by_lead.new.items ≡ columns }
{
    place_span(alloc, columns, list, by_lead, &[])
}

// Takes all numbers out of a list, which keeps its memory.
fn empty_out(numbers: &mut List<usize>)
    ensures { numbers.new ≡ [] }
{
    'pops: while numbers.pop().is_some() {}
}

// Takes away all partners.
fn clear_partners(list: &mut Vec<Class>)
    ensures length { length list.new.items ≡ length list.old.items }
    ensures rows { (i : ℕ) → (class_at list.new.items i).rows ≡ (class_at list.old.items i).rows }
    ensures none { (i : ℕ) → (class_at list.new.items i).partners ≡ [] }
{
    for i in 0..list.len() {
        empty_out(&mut list[i].partners);
    }
}

// Notes that the operands of a product are of the classes of the place.
fn pair(list: &mut Vec<Class>, place: Place) -> Result<(), AllocError>
    requires left { place.left < length list.old.items }
    requires right { place.right < length list.old.items }
    ensures length { OnOk result (length list.new.items ≡ length list.old.items) }
    ensures rows { OnOk result ((i : ℕ) → (class_at list.new.items i).rows ≡ (class_at list.old.items i).rows) }
    ensures classes { OnOk result ((columns : ℕ) → AreClasses columns list.old.items → AreClasses columns list.new.items) }
    ensures steps { OnOk result ((n : ℕ) (products : List (Product ℕ)) → SameSpan (class_rows list.old.items place.left) (product_at products n).left
        → SameSpan (class_rows list.old.items place.right) (product_at products n).right → AreStepsOf n products list.old.items → AreStepsOf (suc n) products list.new.items) }
{
    add_partner(list, place.left, place.right)?;
    add_partner(list, place.right, place.left)?;
    Ok(())
}

/// Whether product k is left out, where those of the set and those from number `bound` on are.
pub(crate) fn is_left_out(set: &[bool], bound: usize, k: usize) -> bool
    requires { k < length set.now }
    ensures { result ≡ beyond (marks_of set.now) bound k }
{
    set[k] || bound <= k
}

impl Gathered {
    /// Gathers the operands of a view's products.
    pub(crate) fn of(alloc: Global, view: &View) -> Result<Gathered, AllocError>
        ensures ready { IfOk result (λ gathered. IsReady gathered) }
        ensures products { IfOk result (λ gathered. IsGatheredOf (products_of view.now) gathered) }
    {
        let columns = view.columns();
        let mut list = Vec::new(alloc);
        let mut by_lead = empty_lanes(alloc, columns)?;
        let bare = place_bare(alloc, columns, &mut list, &mut by_lead)?;
        let mut by_row = empty_lanes(alloc, view.products())?;
        let mut places = Vec::new(alloc);
        for k in 0..view.products() {
            places.push(placed(alloc, view, k, &mut list, &mut by_lead, &mut by_row)?)?;
        }
        let classes = Classes {
            columns,
            list,
            by_lead,
        };
        let images = images_of(alloc, &classes)?;
        Ok(Gathered {
            classes,
            places,
            bare,
            images,
        })
    }

    // Where the operands of product k are, if it is not left out.
    fn place_of(&self, k: usize, is_left_out: bool) -> Place
        requires { k < length self.now.places.items }
        ensures { result ≡ (if is_left_out then record { left = self.now.bare; right = self.now.bare } else place_at self.now.places.items k) }
    {
        if is_left_out {
            Place {
                left: self.bare,
                right: self.bare,
            }
        } else {
            self.places[k]
        }
    }

    /// Leaves out the products whose marks are set and those from number `bound` on, and no others.
    pub(crate) fn leave_out(&mut self, set: &[bool], bound: usize) -> Result<(), AllocError>
        requires ready { IsReady self.old }
        requires marks { length set.now ≡ length self.old.places.items }
        ensures ready { OnOk result (IsReady self.new) }
        ensures rows { OnOk result (HasSameRows self.old self.new) }
        ensures products { OnOk result ((products : List (Product ℕ)) → IsGatheredOf products self.old
            → AreClassesOf (left_out (beyond (marks_of set.now) bound) products) self.new.classes.list.items) }
    {
        clear_partners(&mut self.classes.list);
        for k in 0..set.len() {
            let place = self.place_of(k, is_left_out(set, bound, k));
            pair(&mut self.classes.list, place)?;
        }
        Ok(())
    }

    /// Whether class i has a leak, of the products that are not left out.
    pub(crate) fn leaks_in(
        &self,
        alloc: Global,
        i: usize,
        known: &mut Known,
    ) -> Result<bool, AllocError>
        requires ready { IsReady self.now }
        requires i { i < length self.now.classes.list.items }
        requires known { AreKnown self.now.classes.list.items self.now.classes.columns known.old.spans.items }
        ensures known { OnOk result (AreKnown self.now.classes.list.items self.now.classes.columns known.new.spans.items) }
        ensures answer { IfOk result (λ leaks. MatchBool leaks ((v : Columns ℕ) × IsLeakOf self.now.classes.list.items v)
            (IsClean self.now.classes.list.items (rows_in self.now i))) }
    {
        let mut members = Vec::new(alloc);
        let leak = leak_in(alloc, &self.classes, &self.images, i, known, &mut members)?;
        Ok(leak.is_some())
    }
}
