//! The gadgets of a file by their names.
ghost use Rattle.std.specs.Prelude.{◌≡◌, ℕ, List, Some, if◌then◌else◌, bytes_eq, IfOk, OnOk, option_copied};
ghost use Rattle.c_machine.specs.State.Gadgets.{Finds, gadget_at};

use c_tree::CFun;
use std::alloc::{AllocError, Global};
use std::collections::HashMap;
use tor_edge::Name;

/// The first gadget of each name.
pub type Gadgets<'f> = HashMap<&'f str, &'f CFun>;

// Keeps a gadget under its name, in the place of one that has it too.
fn keep_gadget<'f>(found: &mut Gadgets<'f>, gadget: &'f CFun) -> Result<(), AllocError>
    ensures { OnOk result ((name : List ℕ) → gadget_at found.new name
        ≡ (if bytes_eq gadget.now.name name then Some gadget.now else gadget_at found.old name)) }
{
    match found.insert(gadget.name.as_str(), gadget) {
        Ok(_) => Ok(()),
        Err(_) => Err(AllocError),
    }
}

/// Gadgets by their names.
pub fn gadgets_by_name<'f>(alloc: Global, gadgets: &'f [CFun]) -> Result<Gadgets<'f>, AllocError>
    ensures { IfOk result (λ found. Finds found gadgets.now) }
{
    let mut found = HashMap::new(alloc);
    // The first of the gadgets of a name stays.
    for k in (0..gadgets.len()).rev() {
        keep_gadget(&mut found, &gadgets[k])?;
    }
    Ok(found)
}

/// The gadget of a name.
pub fn gadget_named<'f>(found: &Gadgets<'f>, name: &Name) -> Option<&'f CFun>
    ensures { option_copied result ≡ gadget_at found.now name.now }
{
    found.get(name.as_str()).copied()
}
