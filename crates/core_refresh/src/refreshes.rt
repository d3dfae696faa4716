ghost use Rattle.std.specs.Prelude.{◌≡◌, length, IfOk};
ghost use Rattle.usuba0.specs.Circuit.{IsSmall, HasFewColumns, products_of};
ghost use Rattle.core_refresh.specs.RefreshedCore.{marked, refreshed_core};
ghost use Rattle.core_refresh.specs.State.Copying.{IsCopied};

use crate::copied::Copied;
use std::alloc::{AllocError, Global};
use usuba0::Core;

/// The core with a refresh of the left operand just before each product whose mark is set.
pub fn refreshed(alloc: Global, core: &Core, set: &[bool]) -> Result<Core, AllocError>
    requires marks { length set.now ≡ products_of core.now.equations }
    requires small { IsSmall core.now }
    requires few_columns { HasFewColumns core.now }
    ensures { IfOk result (λ new. new ≡ refreshed_core core.now (marked set.now)) }
{
    let copied = copied_equations(alloc, core, set)?;
    let outputs = copied.outputs(alloc, core)?;
    let equations = copied.into_equations();
    Ok(Core::new(core.width(), core.inputs(), equations, outputs))
}

// The equations with the refreshes of the set, and the new numbers of all registers.
fn copied_equations(alloc: Global, core: &Core, set: &[bool]) -> Result<Copied, AllocError>
    requires marks { length set.now ≡ products_of core.now.equations }
    requires small { IsSmall core.now }
    requires few_columns { HasFewColumns core.now }
    ensures { IfOk result (λ copied. IsCopied core.now (marked set.now) (length core.now.equations) copied) }
{
    let gates = core.equation_slice();
    let mut copied = Copied::start(alloc, core.inputs())?;
    for gate in gates {
        copied.copy(set, gate)?;
    }
    Ok(copied)
}
