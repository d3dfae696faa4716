//! Lists, which are built from their last item on.

ghost use Rattle.std.specs.Prelude.{◌≡◌, IfOk, reverse};

use std::alloc::{AllocError, Global};
use tor_edge::List;

/// The items in text order.
pub fn in_order<T: Drop>(alloc: Global, list: List<T>) -> Result<List<T>, AllocError>
    ensures { IfOk result (λ items. items ≡ reverse list) }
{
    let mut left = list;
    let mut items = List::new(alloc);
    while let Some(item) = left.pop() {
        items.push(item)?;
    }
    Ok(items)
}
