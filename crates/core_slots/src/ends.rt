//! Where the register of each equation is read for the last time.
ghost use Rattle.std.specs.Prelude.{◌≡◌, ℕ, ◌+◌, ◌<◌, ◌^◌, List, [], ◌∷◌, ◌++◌, length, map, All, IfOk};
ghost use Rattle.usuba0.specs.Circuit.{Circuit};
ghost use Rattle.c_form.specs.Slots as form;
ghost use Rattle.core_slots.specs.State.Ends.{AreEnds, AreNoted, numbers};

use crate::operands::Operands;
use std::alloc::{AllocError, Global};
use usuba0::{Core, Gate, Reg};

/// For the register of each equation one more than the place of the last equation that reads it, or 0 where none does;
/// the outputs are read at the place behind the last equation.
pub fn ends_of(alloc: Global, core: &Core) -> Result<Vec<usize>, AllocError>
    ensures ends { IfOk result (λ ends. AreEnds core.now.inputs (form.reads core.now) ends.items) }
    ensures count { IfOk result (λ ends. length ends.items ≡ length core.now.equations) }
    ensures few { IfOk result (λ ends. length ends.items < 2 ^ 32) }
{
    let inputs = core.inputs();
    let gates = core.equation_slice();
    let mut ends = vec![in alloc; 0usize; core.equations() as usize]?;
    note_equations(&mut ends, inputs, gates);
    note_outputs(&mut ends, inputs, core.output_slice());
    Ok(ends)
}

fn note_equations(ends: &mut Vec<usize>, inputs: u32, gates: &[Gate])
    requires registers { All (λ g. All (λ r. r < inputs + length ends.old.items) (form.operands g)) gates.now }
    requires few { length gates.now < 2 ^ 32 }
    ensures count { length ends.new.items ≡ length ends.old.items }
    ensures noted { AreEnds inputs [] ends.old.items → AreEnds inputs (map form.operands gates.now) ends.new.items }
{
    for (place, gate) in gates.iter().enumerate() {
        let operands = Operands::of(gate);
        note_operands(ends, inputs, place, operands);
    }
}

fn note_operands(ends: &mut Vec<usize>, inputs: u32, place: usize, operands: Operands)
    requires registers { All (λ r. r < inputs + length ends.old.items) (numbers operands.first
        ++ numbers operands.second) }
    requires few { place < 2 ^ 32 }
    ensures count { length ends.new.items ≡ length ends.old.items }
    ensures noted { (groups : List (List ℕ)) → length groups ≡ place → AreEnds inputs groups ends.old.items
        → AreEnds inputs (groups ++ (numbers operands.first ++ numbers operands.second) ∷ []) ends.new.items }
{
    note_operand(ends, inputs, place, operands.first);
    note_operand(ends, inputs, place, operands.second);
}

fn note_operand(ends: &mut Vec<usize>, inputs: u32, place: usize, operand: Option<Reg>)
    requires registers { All (λ r. r < inputs + length ends.old.items) (numbers operand) }
    requires few { place < 2 ^ 32 }
    ensures count { length ends.new.items ≡ length ends.old.items }
    ensures noted { (groups : List (List ℕ)) (part : List ℕ) → length groups ≡ place
        → AreEnds inputs (groups ++ part ∷ []) ends.old.items
        → AreEnds inputs (groups ++ (part ++ numbers operand) ∷ []) ends.new.items }
{
    match operand {
        Some(register) => note(ends, inputs, place, register),
        None => {}
    }
}

fn note_outputs(ends: &mut Vec<usize>, inputs: u32, registers: &[Reg])
    requires registers { All (λ r. r.0 < inputs + length ends.old.items) registers.now }
    requires few { length ends.old.items < 2 ^ 32 }
    ensures count { length ends.new.items ≡ length ends.old.items }
    ensures noted { (groups : List (List ℕ)) → length groups ≡ length ends.old.items
        → AreEnds inputs groups ends.old.items
        → AreEnds inputs (groups ++ map (λ r. r.0) registers.now ∷ []) ends.new.items }
{
    let place = ends.len();
    for register in registers {
        note(ends, inputs, place, *register);
    }
}

// Sets the end of a register that is read at a place.
fn note(ends: &mut Vec<usize>, inputs: u32, place: usize, register: Reg)
    requires register { register.0 < inputs + length ends.old.items }
    requires few { place < 2 ^ 32 }
    ensures count { length ends.new.items ≡ length ends.old.items }
    ensures noted { AreNoted inputs place register.0 ends.old.items ends.new.items }
{
    if register.0 >= inputs {
        let made = (register.0 - inputs) as usize;
        ends[made] = place + 1;
    }
}
