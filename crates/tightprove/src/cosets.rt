ghost use Rattle.std.specs.Prelude.{◌≡◌, ◌<◌, ◌++◌, ℕ, map, bit_xor, length, slice_index, IfOk, OnOk, IfSome, MatchOption, Contains};
ghost use Rattle.std.specs.Bool.{OnTrue};
ghost use Rattle.span_model.specs.Columns.{set_of};
ghost use Rattle.tightprove.specs.Classes.{class_rows, IsGathered, IsClean, IsLeakOf};
ghost use Rattle.tightprove.specs.Growth.{AreKnown};
ghost use Rattle.tightprove.specs.Private.Chains.{AreClassSteps};
ghost use Rattle.tightprove.specs.Private.Images.{image_at, AreImages, IsCoset, IsKeptBy, Extends, TakesPartners};

use crate::affine::is_apart_by_rests;
use crate::chains::{ClassStep, leak_by};
use crate::classes::{Classes, span_of};
use crate::images::Images;
use crate::known::Known;
use crate::tasks::leak_among;
use gf2_span::BitRow;
use std::alloc::{AllocError, Global};

// How many members of a coset are looked up at most.
const MOST_MEMBERS: usize = 4096;

// Adds the exclusive-or of each member with the image.
fn add_moved(members: &mut Vec<u64>, image: u64) -> Result<(), AllocError>
    ensures { OnOk result (members.new.items ≡ members.old.items ++ map (λ m. bit_xor m image) members.old.items) }
{
    for k in 0..members.len() {
        let member = members[k];
        members.push(member ^ image)?;
    }
    Ok(())
}

// Extends the coset so that the image keeps it. The answer is whether there was room.
fn extend(members: &mut Vec<u64>, image: u64) -> Result<bool, AllocError>
    requires some { 0 < length members.old.items }
    requires coset { IsCoset members.old.items }
    ensures extends { OnOk result (Extends members.old.items members.new.items) }
    ensures kept { IfOk result (λ room. OnTrue room (IsKeptBy image members.new.items)) }
{
    if members.contains(&(members[0] ^ image)) {
        return Ok(true);
    }
    if members.len() > MOST_MEMBERS / 2 {
        return Ok(false);
    }
    add_moved(members, image)?;
    Ok(true)
}

// Extends the coset so that the images of all partners keep it. The answer is whether there was room.
fn take_partners(
    members: &mut Vec<u64>,
    images: &Images,
    partners: &[usize],
) -> Result<bool, AllocError>
    requires numbers { (j : ℕ) → Contains partners.now j → j < length images.now.by_class.items }
    requires some { 0 < length members.old.items }
    requires coset { IsCoset members.old.items }
    ensures extends { OnOk result (Extends members.old.items members.new.items) }
    ensures kept { IfOk result (λ room. OnTrue room ((j : ℕ) → Contains partners.now j → IsKeptBy (image_at images.now j) members.new.items)) }
{
    for j in partners {
        if !extend(members, images.by_class[*j])? {
            return Ok(false);
        }
    }
    Ok(true)
}

// Takes the partners of the class whose row has this image, where there is one. The answer is whether there was room.
fn take_member(
    members: &mut Vec<u64>,
    images: &Images,
    classes: &Classes,
    member: u64,
) -> Result<bool, AllocError>
    requires classes { IsGathered classes.now }
    requires images { AreImages classes.now.list.items images.now }
    requires some { 0 < length members.old.items }
    requires coset { IsCoset members.old.items }
    ensures extends { OnOk result (Extends members.old.items members.new.items) }
    ensures taken { IfOk result (λ room. OnTrue room (TakesPartners classes.now.list.items images.now member members.new.items)) }
{
    match images.class_of.get(&member).copied() {
        Some(i) => {
            let room = take_partners(members, images, classes.list[i].partners.as_slice())?;
            Ok(room)
        }
        None => Ok(true),
    }
}

// Whether the coset that is grown for the row of class i does not come to 0. Then the row is the leak of no attack.
fn is_apart(
    images: &Images,
    classes: &Classes,
    i: usize,
    members: &mut Vec<u64>,
) -> Result<bool, AllocError>
    requires classes { IsGathered classes.now }
    requires images { AreImages classes.now.list.items images.now }
    requires i { i < length classes.now.list.items }
    ensures { IfOk result (λ apart. OnTrue apart (IsClean classes.now.list.items (class_rows classes.now.list.items i))) }
{
    members.clear();
    members.push(images.by_class[i])?;
    for k in 0..MOST_MEMBERS {
        if k == members.len() {
            return Ok(!members.contains(&0));
        }
        let member = members[k];
        if !take_member(members, images, classes, member)? {
            return Ok(false);
        }
    }
    Ok(false)
}

// The same by one coset or the other: where the first has too many members, the second may still be grown, by steps that are
// noted.
fn is_apart_by_either(
    alloc: Global,
    images: &Images,
    classes: &Classes,
    i: usize,
    members: &mut Vec<u64>,
    steps: &mut Vec<ClassStep>,
) -> Result<bool, AllocError>
    requires classes { IsGathered classes.now }
    requires images { AreImages classes.now.list.items images.now }
    requires i { i < length classes.now.list.items }
    requires steps { AreClassSteps classes.now.list.items steps.old.items }
    ensures steps { OnOk result (AreClassSteps classes.now.list.items steps.new.items) }
    ensures apart { IfOk result (λ apart. OnTrue apart (IsClean classes.now.list.items (class_rows classes.now.list.items i))) }
{
    if is_apart(images, classes, i, members)? {
        return Ok(true);
    }
    is_apart_by_rests(alloc, images, classes, i, steps)
}

// The same where there may be no images.
fn is_known_apart(
    alloc: Global,
    images: &Option<Images>,
    classes: &Classes,
    i: usize,
    members: &mut Vec<u64>,
    steps: &mut Vec<ClassStep>,
) -> Result<bool, AllocError>
    requires classes { IsGathered classes.now }
    requires images { IfSome images.now (λ images. AreImages classes.now.list.items images) }
    requires i { i < length classes.now.list.items }
    requires steps { AreClassSteps classes.now.list.items steps.old.items }
    ensures steps { OnOk result (AreClassSteps classes.now.list.items steps.new.items) }
    ensures apart { IfOk result (λ apart. OnTrue apart (IsClean classes.now.list.items (class_rows classes.now.list.items i))) }
{
    match images {
        Some(images) => {
            let apart = is_apart_by_either(alloc, images, classes, i, members, steps)?;
            Ok(apart)
        }
        None => Ok(false),
    }
}

/// A leak in the span of the rows of class i, where there is one.
pub(crate) fn leak_in(
    alloc: Global,
    classes: &Classes,
    images: &Option<Images>,
    i: usize,
    known: &mut Known,
    members: &mut Vec<u64>,
) -> Result<Option<BitRow>, AllocError>
    requires classes { IsGathered classes.now }
    requires images { IfSome images.now (λ images. AreImages classes.now.list.items images) }
    requires i { i < length classes.now.list.items }
    requires known { AreKnown classes.now.list.items classes.now.columns known.old.spans.items }
    ensures known { OnOk result (AreKnown classes.now.list.items classes.now.columns known.new.spans.items) }
    ensures answer { IfOk result (λ found. MatchOption found (IsClean classes.now.list.items (class_rows classes.now.list.items i))
        (λ leak. (length leak ≡ classes.now.columns) × IsLeakOf classes.now.list.items (set_of leak))) }
{
    let mut steps = Vec::new(alloc);
    if is_known_apart(alloc, images, classes, i, members, &mut steps)? {
        return Ok(None);
    }
    let followed = leak_by(alloc, classes, i, steps.as_slice())?;
    if followed.is_some() {
        return Ok(followed);
    }
    let rows = classes.list[i].rows.as_slice();
    let candidates = span_of(alloc, classes.columns, rows)?;
    let found = leak_among(alloc, classes, candidates, known)?;
    Ok(found)
}
