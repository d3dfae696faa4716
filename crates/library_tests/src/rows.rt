ghost use Rattle.std.specs.Prelude.{◌≡◌, ◌<◌, length, IfOk};

use gf2_span::{BitRow, Span};
use std::alloc::{AllocError, Global};
use std::test::Fail;

// The row of two columns.
fn pair(alloc: Global, columns: u32, a: u32, b: u32) -> Result<BitRow, AllocError>
    requires first { a < columns }
    requires second { b < columns }
    ensures { IfOk result (λ row. length row ≡ columns) }
{
    let mut row = BitRow::new(alloc, columns)?;
    row.flip(a);
    row.flip(b);
    Ok(row)
}

fn spanned(alloc: Global, columns: u32, a: BitRow, b: BitRow) -> Result<Span, AllocError>
    requires first { length a ≡ columns }
    requires second { length b ≡ columns }
    ensures { IfOk result (λ span. span.columns ≡ columns) }
{
    let mut span = Span::new(alloc, columns)?;
    let _first = span.insert(a)?;
    let _second = span.insert(b)?;
    Ok(span)
}

// {0, 1} and {1, 2}
fn neighbours(alloc: Global) -> Result<Span, AllocError>
    ensures { IfOk result (λ span. span.columns ≡ 4) }
{
    spanned(alloc, 4, pair(alloc, 4, 0, 1)?, pair(alloc, 4, 1, 2)?)
}

// {0, 3} and {2, 3}
fn last_pairs(alloc: Global) -> Result<Span, AllocError>
    ensures { IfOk result (λ span. span.columns ≡ 4) }
{
    spanned(alloc, 4, pair(alloc, 4, 0, 3)?, pair(alloc, 4, 2, 3)?)
}

#[test]
fn a_copy_of_a_row_is_its_own(rt: HostRuntime) -> Result<(), Fail> {
    let row = pair(rt.alloc(), 65, 2, 64)?;
    let mut copy = row.copy(rt.alloc())?;
    copy.add(&row);
    assert_eq!(rt; (copy.is_zero(), row.last()), (true, Some(64)));
    Ok(())
}

#[test]
fn a_copy_of_a_span_grows_on_its_own(rt: HostRuntime) -> Result<(), Fail> {
    let span = neighbours(rt.alloc())?;
    let mut copy = span.copy(rt.alloc())?;
    let _fresh = copy.insert(pair(rt.alloc(), 4, 0, 3)?)?;
    assert_eq!(rt; (span.rank(), copy.rank()), (2, 3));
    Ok(())
}

// Together they are all sets of an even number of the four columns.
#[test]
fn the_sum_of_two_spans(rt: HostRuntime) -> Result<(), Fail> {
    let a = neighbours(rt.alloc())?;
    let b = last_pairs(rt.alloc())?;
    assert_eq!(rt; Span::sum(rt.alloc(), &a, &b)?.rank(), 3);
    Ok(())
}

// In common they have {0, 2} alone.
#[test]
fn the_meet_of_two_spans(rt: HostRuntime) -> Result<(), Fail> {
    let a = neighbours(rt.alloc())?;
    let b = last_pairs(rt.alloc())?;
    let meet = Span::meet(rt.alloc(), &a, &b)?;
    assert_eq!(rt; meet.rank(), 1);
    let member = meet.first_nonzero().ok_or("a member")?;
    assert_eq!(rt; (member.first(), member.last()), (Some(0), Some(2)));
    Ok(())
}
