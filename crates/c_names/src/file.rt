ghost use Rattle.std.specs.Prelude.{[], map, OnOk};
ghost use Rattle.c_names.specs.Laws.{NoneIsBad};
ghost use Rattle.c_names.specs.Names as spec;
ghost use Rattle.c_names.specs.State.Answers.{IsAnswer, IsPassed, passed};
ghost use Rattle.c_names.specs.State.Gadgets.{Finds, fits_by, gadget_at};

use crate::fault::NameFault;
use crate::gadget::{Gadgets, call_is_right, check_gadget, keep_gadget};
use crate::places::Places;
use c_tree::{CCall, CFile, CFun};
use std::alloc::Global;
use std::collections::HashMap;
use tor_edge::Place;

/// Checks the names of a file, which stand at these places, in text order.
pub fn check_names(alloc: Global, file: &CFile, places: &[Place]) -> Result<(), NameFault>
    ensures { IsAnswer (spec.first_bad (spec.names_of file.now) places.now) result }
{
    let mut places = Places { left: places };
    let mut found = HashMap::new(alloc);
    check_gadgets(alloc, file.gadgets.as_slice(), &mut found, &mut places)?;
    check_calls(&found, file.calls.as_slice(), &mut places)
}

// Gadgets in turn, each of which can be found from then on.
fn check_gadgets<'f>(
    alloc: Global,
    gadgets: &'f [CFun],
    found: &mut Gadgets<'f>,
    places: &mut Places<'_>,
) -> Result<(), NameFault>
    requires { Finds found.old [] }
    ensures names { IsPassed (passed (spec.gadgets_names [] gadgets.now) places.old.left.now) result
        places.new.left.now }
    ensures found { OnOk result (Finds found.new gadgets.now) }
{
    for gadget in gadgets {
        check_gadget(alloc, found, gadget, places)?;
        keep_gadget(found, gadget)?;
    }
    Ok(())
}

fn check_calls(
    found: &Gadgets<'_>,
    calls: &[CCall],
    places: &mut Places<'_>,
) -> Result<(), NameFault>
    ensures { IsPassed (passed (map (fits_by (gadget_at found.now)) calls.now) places.old.left.now) result
        places.new.left.now }
{
    for call in calls {
        places.pass(call_is_right(found, call))?;
    }
    Ok(())
}

/// Where each name has a place there is no bad one exactly where all are right.
pub fn none_is_bad()
    ensures { NoneIsBad }
{}
