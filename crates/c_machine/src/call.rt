//! Calls of gadgets.
ghost use Rattle.std.specs.Prelude.{◌≡◌, ◌<◌, ◌^◌, [], Some, None, vec_items};
ghost use Rattle.std.specs.Option.{option_map};
ghost use Rattle.c_machine.specs.Run as run;
ghost use Rattle.c_machine.specs.State.Scopes.{meaning_of, scope_of};
ghost use Rattle.c_machine.specs.State.Answers.{IsOutcome, IsBound, state_of};
ghost use Rattle.c_machine.specs.State.Gadgets.{Finds};

use crate::gadgets::{Gadgets, gadget_named};
use crate::scope::{Meant, Named, add_name};
use crate::statement::{Machine, Size, execute_all};
use crate::stop::{Stop, Trap};
use c_tree::{CArg, CCall, CFile, CFun, CParam};

// The name of a parameter.
fn parameter_name(parameter: &CParam) -> &str
    ensures { result.now ≡ run.parameter_name parameter.now }
{
    match parameter {
        CParam::Array(name) | CParam::Word(name) => name.as_str(),
    }
}

// A row of an array of so many rows, which begin in memory at `start`.
fn row_from(start: usize, rows: u32, row: u64) -> Option<Meant>
    requires { start < 2 ^ 33 }
    ensures { option_map meaning_of result ≡ run.row_from start rows row }
{
    if row < u64::from(rows) {
        Some(Meant::Row(start + row as usize))
    } else {
        None
    }
}

// What an argument stands for.
fn argument_meaning(file: &CFile, argument: &CArg) -> Option<Meant>
    ensures { option_map meaning_of result ≡ run.argument_meaning file.now argument.now }
{
    match *argument {
        CArg::Out(row) => row_from(0, file.outputs, row),
        CArg::Input(row) => row_from(file.outputs as usize, file.inputs, row),
        CArg::Slot(row) => row_from(
            file.outputs as usize + file.inputs as usize,
            file.slots,
            row,
        ),
        CArg::Number(word) => Some(Meant::Word(word)),
    }
}

// Brings the parameters of a gadget into scope, with what the arguments of a call stand for.
fn bind<'f>(
    names: &mut Vec<Named<'f>>,
    file: &CFile,
    parameters: &'f [CParam],
    arguments: &[CArg],
) -> Result<(), Stop>
    requires { vec_items names.old ≡ [] }
    ensures { IsBound (run.bound file.now parameters.now arguments.now) result (scope_of (vec_items names.new)) }
{
    for k in 0..parameters.len().min(arguments.len()) {
        let Some(meant) = argument_meaning(file, &arguments[k]) else {
            return Err(Stop::Trap(Trap::IndexOut));
        };
        add_name(names, parameter_name(&parameters[k]), meant)?;
    }
    Ok(())
}

// Does the body of a gadget with what the arguments of a call stand for; no name is in scope before it.
fn do_body<'f>(
    machine: &mut Machine<'f, '_>,
    file: &CFile,
    gadget: &'f CFun,
    arguments: &[CArg],
    size: Size,
) -> Result<(), Stop>
    requires { vec_items machine.old.names ≡ [] }
    ensures { IsOutcome
        (run.body_done size.shares size.bits gadget.now (state_of machine.old).memory (state_of machine.old).stream
        (run.bound file.now gadget.now.params arguments.now))
        result (state_of machine.new) }
{
    bind(
        &mut machine.names,
        file,
        gadget.params.as_slice(),
        arguments,
    )?;
    execute_all(machine, gadget.body.as_slice(), size)
}

/// Does a call of `masked`; the names in scope before it are forgotten.
pub fn do_call<'f>(
    machine: &mut Machine<'f, '_>,
    found: &Gadgets<'f>,
    file: &CFile,
    call: &CCall,
    size: Size,
) -> Result<(), Stop>
    requires bits { size.bits ≡ file.now.reg_bits }
    requires found { Finds found.now file.now.gadgets }
    ensures { IsOutcome
        (run.called size.shares file.now call.now (state_of machine.old).memory (state_of machine.old).stream)
        result (state_of machine.new) }
{
    machine.names.truncate(0);
    match gadget_named(found, &call.gadget) {
        Some(gadget) => do_body(machine, file, gadget, call.args.as_slice(), size),
        None => Ok(()),
    }
}
