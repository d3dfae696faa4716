//! The names of gadgets and of their calls.
ghost use Rattle.std.specs.Prelude.{◌≡◌, ◌∷◌, [], ◌++◌, ℕ, List, not, is_some, OnOk, option_copied, map};
ghost use Rattle.std.specs.Option.{option_or};
ghost use Rattle.c_names.specs.Scope as scopes;
ghost use Rattle.c_names.specs.Names as spec;
ghost use Rattle.c_names.specs.State.Answers.{IsPassed, passed};
ghost use Rattle.c_names.specs.State.Gadgets.{fits_by, gadget_at};

use crate::fault::NameFault;
use crate::places::Places;
use crate::scope::{Role, Scope};
use crate::statement::check_all;
use c_tree::{CArg, CCall, CFun, CParam};
use std::alloc::{AllocError, Global};
use std::collections::HashMap;
use tor_edge::Name;

/// The first gadget of each name.
pub(crate) type Gadgets<'f> = HashMap<&'f str, &'f CFun>;

/// Keeps a gadget under its name, if that has none yet.
pub(crate) fn keep_gadget<'f>(found: &mut Gadgets<'f>, gadget: &'f CFun) -> Result<(), AllocError>
    ensures { OnOk result ((name : List ℕ) → gadget_at found.new name
        ≡ option_or (gadget_at found.old name) (spec.gadget_called (gadget.now ∷ []) name)) }
{
    let name = gadget.name.as_str();
    if found.contains_key(name) {
        return Ok(());
    }
    match found.insert(name, gadget) {
        Ok(_) => Ok(()),
        Err(_) => Err(AllocError),
    }
}

fn gadget_called<'f>(found: &Gadgets<'f>, name: &Name) -> Option<&'f CFun>
    ensures { option_copied result ≡ gadget_at found.now name.now }
{
    found.get(name.as_str()).copied()
}

fn is_new_gadget(found: &Gadgets<'_>, name: &Name) -> bool
    ensures { result ≡ not (is_some (gadget_at found.now name.now)) }
{
    gadget_called(found, name).is_none()
}

// A name that is declared, and comes into scope.
fn declare<'a>(
    name: &'a Name,
    role: Role,
    scope: &mut Scope<'a>,
    places: &mut Places<'_>,
) -> Result<(), NameFault>
    ensures names { IsPassed (passed (scopes.is_new (scopes.role_of scope.old name.now) ∷ [])
        places.old.left.now) result places.new.left.now }
    ensures scope { OnOk result (scope.new ≡ spec.with_name scope.old name.now role) }
{
    places.pass(scope.is_new(name))?;
    scope.add(name, role)?;
    Ok(())
}

// A parameter, which comes into scope.
fn check_parameter<'a>(
    parameter: &'a CParam,
    scope: &mut Scope<'a>,
    places: &mut Places<'_>,
) -> Result<(), NameFault>
    ensures names { IsPassed (passed (spec.parameter_checked parameter.now scope.old).names places.old.left.now) result
        places.new.left.now }
    ensures scope { OnOk result (scope.new ≡ (spec.parameter_checked parameter.now scope.old).scope) }
{
    match parameter {
        CParam::Array(name) => declare(name, Role::Array, scope, places),
        CParam::Word(name) => declare(name, Role::Word, scope, places),
    }
}

fn check_parameters<'a>(
    parameters: &'a [CParam],
    scope: &mut Scope<'a>,
    places: &mut Places<'_>,
) -> Result<(), NameFault>
    ensures names { IsPassed (passed (spec.all_checked (map spec.parameter_checked parameters.now) scope.old).names
        places.old.left.now) result places.new.left.now }
    ensures scope { OnOk result
        (scope.new ≡ (spec.all_checked (map spec.parameter_checked parameters.now) scope.old).scope) }
{
    for parameter in parameters {
        check_parameter(parameter, scope, places)?;
    }
    Ok(())
}

// The parameters of a gadget and its body.
fn check_inner(alloc: Global, gadget: &CFun, places: &mut Places<'_>) -> Result<(), NameFault>
    ensures { IsPassed (passed (spec.inner_names gadget.now) places.old.left.now) result places.new.left.now }
{
    let mut scope = Scope::new(alloc);
    check_parameters(gadget.params.as_slice(), &mut scope, places)?;
    check_all(gadget.body.as_slice(), &mut scope, places)
}

/// A gadget that stands behind those that were found.
pub(crate) fn check_gadget(
    alloc: Global,
    found: &Gadgets<'_>,
    gadget: &CFun,
    places: &mut Places<'_>,
) -> Result<(), NameFault>
    ensures { let new = not (is_some (gadget_at found.now gadget.now.name)) in IsPassed
        (passed ((new ∷ []) ++ spec.inner_names gadget.now) places.old.left.now) result places.new.left.now }
{
    places.pass(is_new_gadget(found, &gadget.name))?;
    check_inner(alloc, gadget, places)
}

fn takes(parameter: &CParam, argument: CArg) -> bool
    ensures { result ≡ spec.takes parameter.now argument }
{
    match parameter {
        CParam::Array(_) => match argument {
            CArg::Out(_) | CArg::Input(_) | CArg::Slot(_) => true,
            CArg::Number(_) => false,
        },
        CParam::Word(_) => match argument {
            CArg::Out(_) | CArg::Input(_) | CArg::Slot(_) => false,
            CArg::Number(_) => true,
        },
    }
}

fn take_all(mut parameters: &[CParam], mut arguments: &[CArg]) -> bool
    ensures { result ≡ spec.take_all parameters.entry.now arguments.entry.now }
{
    while let Some((parameter, more)) = parameters.split_first() {
        let Some((argument, others)) = arguments.split_first() else {
            return false;
        };
        if !takes(parameter, *argument) {
            return false;
        }
        parameters = more;
        arguments = others;
    }
    arguments.is_empty()
}

/// Whether a call names a gadget, and its arguments fit.
pub(crate) fn call_is_right(found: &Gadgets<'_>, call: &CCall) -> bool
    ensures { result ≡ fits_by (gadget_at found.now) call.now }
{
    match gadget_called(found, &call.gadget) {
        Some(gadget) => take_all(gadget.params.as_slice(), call.args.as_slice()),
        None => false,
    }
}
