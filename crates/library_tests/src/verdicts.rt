use gf2_span::BitRow;
use linear_view::{View, view_of};
use std::alloc::Global;
use std::process::Abort;
use std::test::Fail;
use tightprove::{Verdict, leaks, search};
use usuba0::{CoreBuilder, Reg};

fn sum(rt: &impl Abort, builder: &mut CoreBuilder, a: Reg, b: Reg) -> Result<Reg, Fail> {
    assert!(rt; builder.terms() < 99 && a.0 < builder.terms() && b.0 < builder.terms());
    Ok(builder.xor(a, b)?)
}

fn product(rt: &impl Abort, builder: &mut CoreBuilder, a: Reg, b: Reg) -> Result<Reg, Fail> {
    assert!(rt; builder.terms() < 99 && a.0 < builder.terms() && b.0 < builder.terms());
    Ok(builder.and(a, b)?)
}

fn view_of_two(
    rt: &impl Abort,
    alloc: Global,
    builder: CoreBuilder,
    a: Reg,
    b: Reg,
) -> Result<View, Fail> {
    assert!(rt; a.0 < builder.terms() && b.0 < builder.terms());
    let core = builder.finish(alloc, &[a, b])?;
    assert!(rt; core.fits());
    Ok(view_of(alloc, &core)?)
}

// x & y and (x & 1) & (x ^ y) over 2 bits
fn view_of_a_masked_product(rt: &impl Abort, alloc: Global) -> Result<View, Fail> {
    let mut builder = CoreBuilder::new(alloc, 2, 2)?;
    let one = builder.constant(1)?;
    let low = product(rt, &mut builder, Reg(0), one)?;
    let both = sum(rt, &mut builder, Reg(0), Reg(1))?;
    let z = product(rt, &mut builder, Reg(0), Reg(1))?;
    let w = product(rt, &mut builder, low, both)?;
    view_of_two(rt, alloc, builder, z, w)
}

// Whether one column is a leak.
fn leaks_alone(rt: &impl Abort, alloc: Global, view: &View, c: u32) -> Result<bool, Fail> {
    let mut row = BitRow::new(alloc, view.columns())?;
    assert!(rt; c < row.columns());
    row.flip(c);
    Ok(leaks(alloc, view, &row)?)
}

// Bit 0 of x leaks, and bit 1 takes no part.
#[test]
fn only_the_bit_that_both_products_hold_leaks(rt: HostRuntime) -> Result<(), Fail> {
    let view = view_of_a_masked_product(&rt, rt.alloc())?;
    assert!(rt; leaks_alone(&rt, rt.alloc(), &view, 0)?);
    assert!(rt; !leaks_alone(&rt, rt.alloc(), &view, 1)?);
    Ok(())
}

#[test]
fn the_bit_is_found(rt: HostRuntime) -> Result<(), Fail> {
    let view = view_of_a_masked_product(&rt, rt.alloc())?;
    let last = match search(rt.alloc(), &view)? {
        Verdict::Secure => None,
        Verdict::Leak(leak) => leak.last(),
    };
    assert_eq!(rt; last, Some(0));
    Ok(())
}
