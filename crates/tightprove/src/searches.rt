ghost use Rattle.std.specs.Prelude.{◌≡◌, ◌≢◌, ◌<◌, ℕ, length, IfOk, OnOk, OnErr, IfSome, MatchOption, MatchBool, Contains, All};
ghost use Rattle.span_model.specs.Columns.{set_of};
ghost use Rattle.span_model.specs.Attack.{IsLeak};
ghost use Rattle.gf2_span.specs.Basis.{row_sets};
ghost use Rattle.linear_view.specs.View.{products_of};
ghost use Rattle.tightprove.specs.Classes.{class_rows, IsGathered, IsClean, IsLeakOf};
ghost use Rattle.tightprove.specs.Growth.{AreKnown};
ghost use Rattle.tightprove.specs.Private.Images.{AreImages};
ghost use Rattle.tightprove.specs.Verdict.{IsVerdictOf};

use crate::classes::{Classes, classes_of};
use crate::cosets::leak_in;
use crate::growth::grow;
use crate::images::{Images, images_of};
use crate::known::Known;
use gf2_span::{BitRow, Span};
use linear_view::View;
use span_model::leaks_are_closed;
use std::alloc::{AllocError, Global};

/// Whether products have an attack, and the leak of one.
#[derive(Debug, Drop)]
pub enum Verdict {
    Secure,
    Leak(BitRow),
}

// The numbers of all classes, those of more rows first.
fn largest_first(alloc: Global, classes: &Classes) -> Result<Vec<usize>, AllocError>
    ensures all { IfOk result (λ order. (i : ℕ) → i < length classes.now.list.items → Contains order.items i) }
    ensures numbers { IfOk result (λ order. All (λ i. i < length classes.now.list.items) order.items) }
{
    let mut order = Vec::new(alloc);
    for i in 0..classes.list.len() {
        order.push(i)?;
    }
    order.sort_by_key(|i| usize::MAX - classes.list.get(*i).map_or(0, |class| class.rows.len()))?;
    Ok(order)
}

// A leak of the products with these classes, where there is one.
fn first_leak(
    alloc: Global,
    classes: &Classes,
    images: &Option<Images>,
) -> Result<Option<BitRow>, AllocError>
    requires classes { IsGathered classes.now }
    requires images { IfSome images.now (λ images. AreImages classes.now.list.items images) }
    ensures { IfOk result (λ found. MatchOption found ((i : ℕ) → i < length classes.now.list.items → IsClean classes.now.list.items (class_rows classes.now.list.items i))
        (λ leak. (length leak ≡ classes.now.columns) × IsLeakOf classes.now.list.items (set_of leak))) }
{
    let mut known = Known::new(alloc, classes.columns)?;
    let mut members = Vec::new(alloc);
    for i in &largest_first(alloc, classes)? {
        let found = leak_in(alloc, classes, images, *i, &mut known, &mut members)?;
        if found.is_some() {
            return Ok(found);
        }
    }
    Ok(None)
}

/// Whether the products of a view have an attack.
pub fn search(alloc: Global, view: &View) -> Result<Verdict, AllocError>
    ensures { IfOk result (λ verdict. IsVerdictOf (length view.now.columns) (products_of view.now) verdict) }
{
    leaks_are_closed::<u32>();
    let classes = classes_of(alloc, view)?;
    let images = images_of(alloc, &classes)?;
    match first_leak(alloc, &classes, &images)? {
        Some(leak) => Ok(Verdict::Leak(leak)),
        None => Ok(Verdict::Secure),
    }
}

/// Whether a set of columns is the leak of an attack on the products of a view.
pub fn leaks(alloc: Global, view: &View, leak: &BitRow) -> Result<bool, AllocError>
    requires { length leak.now ≡ length view.now.columns }
    ensures { IfOk result (λ leaks. MatchBool leaks (IsLeak (products_of view.now) (set_of leak.now)) (¬ IsLeak (products_of view.now) (set_of leak.now))) }
{
    if leak.is_zero() {
        return Ok(false);
    }
    leaks_are_closed::<u32>();
    let classes = classes_of(alloc, view)?;
    let mut candidates = Span::new(alloc, classes.columns)?;
    let _fresh = candidates.insert(leak.copy(alloc)?)?;
    let span = grow(alloc, &classes, &candidates)?;
    let mut scratch = BitRow::new(alloc, classes.columns)?;
    Ok(span.contains(leak, &mut scratch))
}
