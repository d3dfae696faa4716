//! Statements.
ghost use Rattle.std.specs.Prelude.{◌≡◌, ◌-◌, ◌%◌, ◌^◌, OnOk, map, length};
ghost use Rattle.c_machine.specs.Machine as model;
ghost use Rattle.c_machine.specs.Scope as scope;
ghost use Rattle.c_machine.specs.State.Scopes.{meaning_of};
ghost use Rattle.c_machine.specs.State.Answers.{IsReading, IsOutcome, state_of};

use crate::expression::{Stream, evaluate};
use crate::memory::write_word;
use crate::scope::{Meant, Named, add_name, index_value, low_value, row_of};
use crate::stop::{Stop, Trap};
use c_tree::{CExpr, CIndex, CStmt};
use std::alloc::AllocError;
use tor_edge::{List, Name};

/// The count of shares, and the bits of `reg`.
#[derive(Clone, Copy, Drop)]
pub struct Size {
    pub shares: u32,
    pub bits: u32,
}

/// The names in scope, the rows of memory, and the random words that are left.
#[derive(Drop)]
pub struct Machine<'a, 'w> {
    pub names: Vec<Named<'a>>,
    pub rows: Vec<List<u64>>,
    pub stream: Stream<'w>,
}

// A word cut to so many bits.
fn cut(word: u64, bits: u32) -> u64
    ensures { result ≡ word % 2 ^ bits }
{
    if bits < 64 {
        word & ((1 << bits) - 1)
    } else {
        word
    }
}

impl<'a> Machine<'a, '_> {
    // The word of an expression.
    fn compute(&mut self, expression: &CExpr) -> Result<u64, Trap>
        ensures read { IsReading
            (model.evaluated expression.now (state_of self.old).scope (state_of self.old).memory
            (state_of self.old).stream)
            result (state_of self.new).stream }
        ensures scope_stays { (state_of self.new).scope ≡ (state_of self.old).scope }
        ensures memory_stays { (state_of self.new).memory ≡ (state_of self.old).memory }
    {
        evaluate(
            expression,
            self.names.as_slice(),
            self.rows.as_slice(),
            &mut self.stream,
        )
    }

    // A name comes into scope.
    fn enter(&mut self, name: &'a Name, meant: Meant) -> Result<(), AllocError>
        ensures { OnOk result (state_of self.new ≡ model.entered (state_of self.old) name.now (meaning_of meant)) }
    {
        add_name(&mut self.names, name.as_str(), meant)
    }

    // Writes a word of an array.
    fn store(&mut self, array: &Name, index: &CIndex, word: u64) -> Result<(), Stop>
        ensures { IsOutcome
            (model.stored (state_of self.old) (state_of self.old).stream (model.with_word (state_of self.old).memory
            (scope.row_of (scope.meant_by (state_of self.old).scope array.now))
            (scope.index_value (state_of self.old).scope index.now) word))
            result (state_of self.new) }
    {
        let names = self.names.as_slice();
        let row = row_of(names, array);
        let index = index_value(names, index);
        if write_word(&mut self.rows, row, index, word) {
            Ok(())
        } else {
            Err(Stop::Trap(Trap::IndexOut))
        }
    }
}

// An assignment of a word cut to the bits of `reg`.
fn assign(
    machine: &mut Machine<'_, '_>,
    array: &Name,
    index: &CIndex,
    value: &CExpr,
    bits: u32,
) -> Result<(), Stop>
    ensures { IsOutcome (model.assigned bits (state_of machine.old) array.now index.now
        (model.evaluated value.now (state_of machine.old).scope (state_of machine.old).memory
        (state_of machine.old).stream))
        result (state_of machine.new) }
{
    let computed = machine.compute(value)?;
    machine.store(array, index, cut(computed, bits))
}

// A declaration of a word.
fn declare<'a>(machine: &mut Machine<'a, '_>, name: &'a Name, value: &CExpr) -> Result<(), Stop>
    ensures { IsOutcome (model.declared (state_of machine.old) name.now
        (model.evaluated value.now (state_of machine.old).scope (state_of machine.old).memory
        (state_of machine.old).stream))
        result (state_of machine.new) }
{
    let word = machine.compute(value)?;
    machine.enter(name, Meant::Word(word))?;
    Ok(())
}

/// Does statements in turn.
#[cycle(statements)]
pub fn execute_all<'a>(
    machine: &mut Machine<'a, '_>,
    statements: &'a [CStmt],
    size: Size,
) -> Result<(), Stop>
    ensures { IsOutcome
        (model.in_turn (map (model.executed size.shares size.bits) statements.now) (state_of machine.old)) result
        (state_of machine.new) }
{
    for statement in statements {
        execute(machine, statement, size)?;
    }
    Ok(())
}

#[cycle(statements)]
fn execute<'a>(machine: &mut Machine<'a, '_>, statement: &'a CStmt, size: Size) -> Result<(), Stop>
    ensures { IsOutcome (model.executed size.shares size.bits statement.now (state_of machine.old)) result
        (state_of machine.new) }
{
    match statement {
        CStmt::Assign {
            array,
            index,
            value,
        } => assign(machine, array, index, value, size.bits),
        CStmt::Let { name, value } => declare(machine, name, value),
        CStmt::For { counter, low, body } => {
            let low = low_value(machine.names.as_slice(), low);
            run_rounds(machine, counter, body.as_slice(), low, size)
        }
    }
}

// The rounds of a loop whose counter goes up from `low` to below the count of shares.
#[cycle(statements)]
fn run_rounds<'a>(
    machine: &mut Machine<'a, '_>,
    counter: &'a Name,
    body: &'a [CStmt],
    low: u64,
    size: Size,
) -> Result<(), Stop>
    ensures { IsOutcome (model.rounds counter.now (model.in_turn (map (model.executed size.shares size.bits) body.now))
        (size.shares - low) low (state_of machine.old)) result (state_of machine.new) }
{
    let Ok(low) = u32::try_from(low) else {
        return Ok(());
    };
    for value in low..size.shares {
        run_round(machine, counter, body, value, size)?;
    }
    Ok(())
}

#[cycle(statements)]
fn run_round<'a>(
    machine: &mut Machine<'a, '_>,
    counter: &'a Name,
    body: &'a [CStmt],
    value: u32,
    size: Size,
) -> Result<(), Stop>
    ensures { IsOutcome (model.closed (length (state_of machine.old).scope)
        (model.in_turn (map (model.executed size.shares size.bits) body.now)
        (model.entered (state_of machine.old) counter.now (scope.counter value))))
        result (state_of machine.new) }
{
    let before = machine.names.as_slice().len();
    machine.enter(counter, Meant::Counter(value))?;
    execute_all(machine, body, size)?;
    machine.names.truncate(before);
    Ok(())
}
