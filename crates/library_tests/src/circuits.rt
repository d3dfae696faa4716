use std::test::Fail;
use usuba0::{CoreBuilder, Reg, Turn, run_plain};

// x | y over 8 bits
#[test]
fn a_disjunction_is_run_bit_by_bit(rt: HostRuntime) -> Result<(), Fail> {
    let mut builder = CoreBuilder::new(rt.alloc(), 8, 2)?;
    let either = builder.or(Reg(0), Reg(1))?;
    let core = builder.finish(rt.alloc(), &[either])?;
    let words = run_plain(rt.alloc(), &core, &[140, 10])?;
    assert_eq!(rt; words.get(0).copied(), Some(142));
    Ok(())
}

// refresh(x <<< 1, 3) over 8 bits
#[test]
fn a_refreshed_rotation_is_run_as_the_rotation(rt: HostRuntime) -> Result<(), Fail> {
    let mut builder = CoreBuilder::new(rt.alloc(), 8, 1)?;
    let turned = builder.shift(Turn::RotLeft, 1, Reg(0))?;
    assert!(rt; turned.0 < builder.terms() && builder.terms() < 9);
    let fresh = builder.refresh(3, turned)?;
    let core = builder.finish(rt.alloc(), &[fresh])?;
    let words = run_plain(rt.alloc(), &core, &[140])?;
    assert_eq!(rt; words.get(0).copied(), Some(25));
    Ok(())
}

// 8 >>> 3 is 1: what is made of constants is a constant, and each stands once.
#[test]
fn a_rotated_constant_is_a_constant(rt: HostRuntime) -> Result<(), Fail> {
    let mut builder = CoreBuilder::new(rt.alloc(), 8, 1)?;
    let one = builder.constant(1)?;
    let eight = builder.constant(8)?;
    let turned = builder.shift(Turn::RotRight, 3, eight)?;
    assert_eq!(rt; turned.0, one.0);
    Ok(())
}
