ghost use Rattle.std.specs.Prelude.{◌≡◌, ◌-◌, ◌<◌, ◌≤◌, ◌^◌, min, drop, length, MatchOption};
ghost use Rattle.usuba_model.specs.Shapes.{sizes, product as all_of, all_elements};
ghost use Rattle.usuba_model.specs.Walk.{most_operations};

use usuba_trees::{Decl, Shape};

/// The most operations that a source may have: each declared element counts as one.
const MOST_OPERATIONS: u64 = 4_194_304;

/// How many elements sizes give, or 2^64 - 1 where they give more.
pub fn product(sizes: &[u64]) -> u64
    ensures { result ≡ min (all_of sizes.now) (2 ^ 64 - 1) }
{
    let mut product: u64 = 1;
    for size in sizes {
        product = product.saturating_mul(*size);
    }
    product
}

/// The same of the sizes from one on.
pub fn product_from(sizes: &[u64], from: usize) -> u64
    requires { from ≤ length sizes.now }
    ensures { result ≡ min (all_of (drop from sizes.now)) (2 ^ 64 - 1) }
{
    product(&sizes[from..])
}

/// How many elements a type gives, or 2^64 - 1 where it gives more.
pub fn elements(shape: &Shape) -> u64
    ensures { result ≡ min (all_of (sizes shape.now)) (2 ^ 64 - 1) }
{
    let dims = product(shape.dims.as_slice());
    match shape.count {
        Some(count) => dims.saturating_mul(count),
        None => dims,
    }
}

/// How many elements declared variables have together, where these are no more than the operations that a source may have.
pub fn count_elements(declarations: &[Decl]) -> Option<u32>
    ensures { MatchOption result
        (most_operations < all_elements declarations.now)
        (λ count. (count ≡ all_elements declarations.now) × (count ≤ most_operations)) }
{
    let mut total: u64 = 0;
    for declaration in declarations {
        total = total.saturating_add(elements(&declaration.shape));
    }
    if total <= MOST_OPERATIONS {
        Some(total as u32)
    } else {
        None
    }
}
