//! A run of a file.
ghost use Rattle.std.specs.Prelude.{◌≡◌, ◌++◌, ◌*◌, ◌<◌, ◌≤◌, take, IfOk, IfErr, OnOk, Ok, length, vec_items};
ghost use Rattle.c_machine.specs.Run.{machine_run, calls_done, words_of_rows, rows_of, zero_rows, start_memory, IsRunFault};
ghost use Rattle.c_machine.specs.State.Answers.{state_of, IsEnding, fault_of};
ghost use Rattle.c_machine.specs.State.Gadgets.{Finds};

use crate::call::do_call;
use crate::expression::Stream;
use crate::gadgets::{Gadgets, gadgets_by_name};
use crate::statement::{Machine, Size};
use crate::stop::{RunFault, Stop, Trap};
use c_tree::CFile;
use std::alloc::{AllocError, Global};
use tor_edge::List;

// Appends so many rows of zeros.
fn push_zero_rows(
    alloc: Global,
    rows: &mut Vec<List<u64>>,
    shares: u32,
    count: u32,
) -> Result<(), AllocError>
    ensures { OnOk result (vec_items rows.new ≡ vec_items rows.old ++ zero_rows shares count) }
{
    for _ in 0..count {
        let row = vec![in alloc; 0; shares as usize]?;
        rows.push(List::from_vec(row))?;
    }
    Ok(())
}

// Appends so many rows, of words in order.
fn push_rows(
    alloc: Global,
    rows: &mut Vec<List<u64>>,
    shares: u32,
    words: &[u64],
    count: u32,
) -> Result<(), AllocError>
    requires { length words.now ≡ count * shares }
    ensures { OnOk result (vec_items rows.new ≡ vec_items rows.old ++ rows_of shares count words.now) }
{
    let mut rest = words;
    for _ in 0..count {
        let (row, further) = rest.split_at(shares as usize);
        rows.push(List::from_slice(alloc, row)?)?;
        rest = further;
    }
    Ok(())
}

// The memory before the first call.
fn start(
    alloc: Global,
    file: &CFile,
    shares: u32,
    inputs: &[u64],
) -> Result<Vec<List<u64>>, AllocError>
    requires { length inputs.now ≡ file.now.inputs * shares }
    ensures { IfOk result (λ rows. vec_items rows ≡ start_memory shares file.now inputs.now) }
{
    let mut rows = Vec::new(alloc);
    push_zero_rows(alloc, &mut rows, shares, file.outputs)?;
    push_rows(alloc, &mut rows, shares, inputs, file.inputs)?;
    push_zero_rows(alloc, &mut rows, shares, file.slots)?;
    Ok(rows)
}

// What stopped a call, as what stops the run.
fn fault_at(call: u64, stop: Stop) -> RunFault
    ensures { result ≡ fault_of call stop }
{
    match stop {
        Stop::Trap(Trap::IndexOut) => RunFault::IndexOut(call),
        Stop::Trap(Trap::BadShift) => RunFault::BadShift(call),
        Stop::Trap(Trap::WordsShort) => RunFault::WordsShort,
        Stop::Memory(error) => RunFault::Memory(error),
    }
}

// Does all calls of a file.
fn do_calls<'f>(
    machine: &mut Machine<'f, '_>,
    found: &Gadgets<'f>,
    file: &CFile,
    size: Size,
) -> Result<(), RunFault>
    requires bits { size.bits ≡ file.now.reg_bits }
    requires found { Finds found.now file.now.gadgets }
    ensures { IsEnding
        (calls_done size.shares file.now 0 file.now.calls (state_of machine.old).memory (state_of machine.old).stream)
        result (state_of machine.new).memory }
{
    let calls = file.calls.as_slice();
    for k in 0..calls.len() {
        if let Err(stop) = do_call(machine, found, file, &calls[k], size) {
            return Err(fault_at(k as u64, stop));
        }
    }
    Ok(())
}

// The words of the first so many rows, in order.
fn words_of(alloc: Global, rows: &[List<u64>], count: u32) -> Result<List<u64>, AllocError>
    ensures { IfOk result (λ words. words ≡ words_of_rows (take count rows.now)) }
{
    let mut words = Vec::new(alloc);
    for k in 0..rows.len().min(count as usize) {
        words.extend_from_slice(rows[k].as_slice())?;
    }
    Ok(List::from_vec(words))
}

/// Runs a file on so many shares: the shares of input 0, then those of input 1 and so on, and the random words. The
/// answer has the shares of the outputs in the same way.
///
/// A number that is no row of its array, or no place in a row, a shift by 64 or more, and a draw that finds no word
/// stop the run; the first that it meets is answered.
pub fn run_c(
    alloc: Global,
    file: &CFile,
    shares: u32,
    inputs: &[u64],
    words: &[u64],
) -> Result<List<u64>, RunFault>
    requires some { 0 < shares }
    requires few { shares ≤ 65535 }
    requires count { length inputs.now ≡ file.now.inputs * shares }
    ensures answer { IfOk result (λ shared. machine_run shares file.now inputs.now words.now ≡ Ok shared) }
    ensures refused { IfErr result (IsRunFault (machine_run shares file.now inputs.now words.now)) }
{
    let found = gadgets_by_name(alloc, file.gadgets.as_slice())?;
    let rows = start(alloc, file, shares, inputs)?;
    let mut machine = Machine {
        names: Vec::new(alloc),
        rows,
        stream: Stream { words },
    };
    let size = Size {
        shares,
        bits: file.reg_bits,
    };
    do_calls(&mut machine, &found, file, size)?;
    let shared = words_of(alloc, machine.rows.as_slice(), file.outputs)?;
    Ok(shared)
}
