//! The parts that gadgets are made of.
ghost use Rattle.std.specs.Prelude.{◌≡◌, [], ◌∷◌, IfOk};
ghost use Rattle.c_tree.specs.declared.CExpr.TheVariants as e;
ghost use Rattle.c_tree.specs.declared.CStmt.TheVariants as s;
ghost use Rattle.c_form.specs.Template as form;

use c_tree::{CExpr, CIndex, CLow, COp, CParam, CStmt};
use std::alloc::{AllocError, Global};
use tor_edge::{Boxed, List, Name};

/// `(uint64_t)ARRAY[COUNTER]`
pub fn cell(alloc: Global, array: &str, counter: &str) -> Result<CExpr, AllocError>
    ensures { IfOk result (λ made. made ≡ form.cell array.now counter.now) }
{
    let array = Name::of(alloc, array)?;
    let index = CIndex::Counter(Name::of(alloc, counter)?);
    Ok(CExpr::Cell { array, index })
}

/// A name that stands alone.
pub fn word(alloc: Global, name: &str) -> Result<CExpr, AllocError>
    ensures { IfOk result (λ made. made ≡ e.Word name.now) }
{
    Ok(CExpr::Word(Name::of(alloc, name)?))
}

/// `(LEFT OP RIGHT)`
pub fn two(alloc: Global, op: COp, left: CExpr, right: CExpr) -> Result<CExpr, AllocError>
    ensures { IfOk result (λ made. made ≡ e.Two op left right) }
{
    let left = Boxed::new(alloc, left)?;
    let right = Boxed::new(alloc, right)?;
    Ok(CExpr::Two { op, left, right })
}

/// `(VALUE & UINT64_C(MASK))`
pub fn masked(alloc: Global, mask: u64, value: CExpr) -> Result<CExpr, AllocError>
    ensures { IfOk result (λ made. made ≡ form.masked mask value) }
{
    two(alloc, COp::And, value, CExpr::Number(mask))
}

/// `ARRAY[COUNTER] = (reg)VALUE;`
pub fn assign(alloc: Global, array: &str, counter: &str, value: CExpr) -> Result<CStmt, AllocError>
    ensures { IfOk result (λ made. made ≡ form.assign array.now counter.now value) }
{
    let array = Name::of(alloc, array)?;
    let index = CIndex::Counter(Name::of(alloc, counter)?);
    Ok(CStmt::Assign {
        array,
        index,
        value,
    })
}

/// `ARRAY[0] = (reg)VALUE;`
pub fn assign_first(alloc: Global, array: &str, value: CExpr) -> Result<CStmt, AllocError>
    ensures { IfOk result (λ made. made ≡ form.assign_first array.now value) }
{
    let array = Name::of(alloc, array)?;
    Ok(CStmt::Assign {
        array,
        index: CIndex::Number(0),
        value,
    })
}

/// A list of one.
pub fn one<T: Drop>(alloc: Global, item: T) -> Result<List<T>, AllocError>
    ensures { IfOk result (λ made. made ≡ item ∷ []) }
{
    let mut items = List::new(alloc);
    items.push(item)?;
    Ok(items)
}

/// A list of two.
pub fn pair<T: Drop>(alloc: Global, first: T, second: T) -> Result<List<T>, AllocError>
    ensures { IfOk result (λ made. made ≡ first ∷ second ∷ []) }
{
    let mut items = one(alloc, first)?;
    items.push(second)?;
    Ok(items)
}

/// A list of three.
pub fn triple<T: Drop>(alloc: Global, first: T, second: T, third: T) -> Result<List<T>, AllocError>
    ensures { IfOk result (λ made. made ≡ first ∷ second ∷ third ∷ []) }
{
    let mut items = pair(alloc, first, second)?;
    items.push(third)?;
    Ok(items)
}

/// A loop over the shares from `start` on.
pub fn shares_from(alloc: Global, start: u64, body: List<CStmt>) -> Result<CStmt, AllocError>
    ensures { IfOk result (λ made. made ≡ form.shares_from start body) }
{
    let counter = Name::of(alloc, "i")?;
    Ok(CStmt::For {
        counter,
        low: CLow::Number(start),
        body,
    })
}

/// A loop over the pairs of shares.
pub fn share_pairs(alloc: Global, body: List<CStmt>) -> Result<CStmt, AllocError>
    ensures { IfOk result (λ made. made ≡ form.share_pairs body) }
{
    let counter = Name::of(alloc, "j")?;
    let low = CLow::After(Name::of(alloc, "i")?);
    let inner = one(alloc, CStmt::For { counter, low, body })?;
    shares_from(alloc, 0, inner)
}

/// A loop that assigns each share of `c` from `start` on.
pub fn assign_from(alloc: Global, start: u64, value: CExpr) -> Result<CStmt, AllocError>
    ensures { IfOk result (λ made. made ≡ form.assign_from start value) }
{
    let body = one(alloc, assign(alloc, "c", "i", value)?)?;
    shares_from(alloc, start, body)
}

/// `uint64_t NAME = (tornado_random() & UINT64_C(MASK));`
pub fn draw(alloc: Global, mask: u64, name: &str) -> Result<CStmt, AllocError>
    ensures { IfOk result (λ made. made ≡ form.draw mask name.now) }
{
    let name = Name::of(alloc, name)?;
    let value = masked(alloc, mask, CExpr::Random)?;
    Ok(CStmt::Let { name, value })
}

/// `c[COUNTER] = (reg)((uint64_t)c[COUNTER] ^ NAME);`
pub fn add_to(alloc: Global, counter: &str, name: &str) -> Result<CStmt, AllocError>
    ensures { IfOk result (λ made. made ≡ form.add_to counter.now name.now) }
{
    let share = cell(alloc, "c", counter)?;
    let added = word(alloc, name)?;
    let sum = two(alloc, COp::Xor, share, added)?;
    assign(alloc, "c", counter, sum)
}

/// `((uint64_t)a[I] & (uint64_t)b[J])`
pub fn share_product(alloc: Global, i: &str, j: &str) -> Result<CExpr, AllocError>
    ensures { IfOk result (λ made. made ≡ form.share_product i.now j.now) }
{
    let left = cell(alloc, "a", i)?;
    let right = cell(alloc, "b", j)?;
    two(alloc, COp::And, left, right)
}

/// `((uint64_t)a[i] OP k)`
pub fn share_with_k(alloc: Global, op: COp) -> Result<CExpr, AllocError>
    ensures { IfOk result (λ made. made ≡ form.share_with_k op) }
{
    let share = cell(alloc, "a", "i")?;
    let amount = word(alloc, "k")?;
    two(alloc, op, share, amount)
}

/// A parameter `reg NAME[D]`.
pub fn array_parameter(alloc: Global, name: &str) -> Result<CParam, AllocError>
    ensures { IfOk result (λ made. made ≡ form.array_parameter name.now) }
{
    Ok(CParam::Array(Name::of(alloc, name)?))
}

/// The parameters `reg c[D], reg a[D]`.
pub fn unary_parameters(alloc: Global) -> Result<List<CParam>, AllocError>
    ensures { IfOk result (λ made. made ≡ form.unary_parameters) }
{
    let c = array_parameter(alloc, "c")?;
    let a = array_parameter(alloc, "a")?;
    pair(alloc, c, a)
}

/// The parameters `reg c[D], reg a[D], reg b[D]`.
pub fn binary_parameters(alloc: Global) -> Result<List<CParam>, AllocError>
    ensures { IfOk result (λ made. made ≡ form.binary_parameters) }
{
    let c = array_parameter(alloc, "c")?;
    let a = array_parameter(alloc, "a")?;
    let b = array_parameter(alloc, "b")?;
    triple(alloc, c, a, b)
}

/// The parameters `reg c[D], reg a[D], uint64_t k`.
pub fn constant_parameters(alloc: Global) -> Result<List<CParam>, AllocError>
    ensures { IfOk result (λ made. made ≡ form.constant_parameters) }
{
    let c = array_parameter(alloc, "c")?;
    let a = array_parameter(alloc, "a")?;
    let k = CParam::Word(Name::of(alloc, "k")?);
    triple(alloc, c, a, k)
}
