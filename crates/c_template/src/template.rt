ghost use Rattle.std.specs.Prelude.{◌≡◌, ◌++◌, IfOk};
ghost use Rattle.c_form.specs.Template as form;

use crate::gadgets::{
    and_gadget, const_gadget, copy_gadget, mask_gadget, not_gadget, refresh_gadget, rotl_gadget,
    shl_gadget, shr_gadget, xor_gadget,
};
use crate::parts::{pair, triple};
use c_tree::CFun;
use std::alloc::{AllocError, Global};
use tor_edge::List;

/// The gadgets in text order, for words of so many bits, of which the mask is the word of as many ones.
pub fn template_gadgets(alloc: Global, mask: u64, bits: u64) -> Result<List<CFun>, AllocError>
    ensures { IfOk result (λ made. made ≡ form.template mask bits) }
{
    let mut gadgets = bitwise_gadgets(alloc, mask)?;
    gadgets.append(shift_gadgets(alloc, mask, bits)?)?;
    gadgets.append(drawing_gadgets(alloc, mask)?)?;
    Ok(gadgets)
}

// Constants, sums, complements and masks.
fn bitwise_gadgets(alloc: Global, mask: u64) -> Result<List<CFun>, AllocError>
    ensures { IfOk result (λ made. made ≡ form.bitwise_gadgets mask) }
{
    let mut gadgets = pair(alloc, const_gadget(alloc)?, xor_gadget(alloc)?)?;
    gadgets.append(complement_and_mask(alloc, mask)?)?;
    Ok(gadgets)
}

fn complement_and_mask(alloc: Global, mask: u64) -> Result<List<CFun>, AllocError>
    ensures { IfOk result (λ made. made ≡ form.complement_and_mask mask) }
{
    pair(alloc, not_gadget(alloc, mask)?, mask_gadget(alloc)?)
}

fn shift_gadgets(alloc: Global, mask: u64, bits: u64) -> Result<List<CFun>, AllocError>
    ensures { IfOk result (λ made. made ≡ form.shift_gadgets mask bits) }
{
    let left = shl_gadget(alloc, mask)?;
    let right = shr_gadget(alloc)?;
    let round = rotl_gadget(alloc, mask, bits)?;
    triple(alloc, left, right, round)
}

// Products and refreshes, and last the copy.
fn drawing_gadgets(alloc: Global, mask: u64) -> Result<List<CFun>, AllocError>
    ensures { IfOk result (λ made. made ≡ form.drawing_gadgets mask) }
{
    let product = and_gadget(alloc, mask)?;
    let refresh = refresh_gadget(alloc, mask)?;
    let copy = copy_gadget(alloc)?;
    triple(alloc, product, refresh, copy)
}
