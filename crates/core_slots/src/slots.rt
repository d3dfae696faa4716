ghost use Rattle.std.specs.Prelude.{◌≡◌, ℕ, ◌+◌, ◌<◌, ◌≤◌, ◌^◌, ◌==◌, ◌&&◌, ◌||◌, nat_le, max, List, [], ◌∷◌, ◌++◌};
ghost use Rattle.std.specs.Prelude.{length, slice_get, slice_index, All, Some, IfOk, OnOk};
ghost use Rattle.std.specs.List.{list_any};
ghost use Rattle.usuba0.specs.Circuit.{Circuit};
ghost use Rattle.c_form.specs.Slots as form;
ghost use Rattle.core_slots.specs.State.Ends.{AreEnds, numbers};
ghost use Rattle.core_slots.specs.State.Free.{is_free, is_released, IsTaken, AreAllotted};

use crate::ends::ends_of;
use crate::operands::Operands;
use std::alloc::{AllocError, Global};
use std::collections::BTreeSet;
use tor_edge::List;
use usuba0::{Core, Gate, Reg};

/// The slot of each equation, and how many slots there are.
#[derive(Drop)]
pub struct Slots {
    pub places: List<u32>,
    pub count: u32,
}

// The slots of the equations so far, those among them that are free, and how many there are.
#[derive(Drop)]
struct Allotment {
    places: Vec<u32>,
    free: BTreeSet<u32>,
    count: u32,
}

/// The least slots of a core: that of each equation is the least number that no register live at it holds.
pub fn slots_of(alloc: Global, core: &Core) -> Result<Slots, AllocError>
    ensures least { IfOk result (λ slots. form.AreLeastSlots core.now slots.places) }
    ensures count { IfOk result (λ slots. slots.count ≡ form.slot_count slots.places) }
{
    let ends = ends_of(alloc, core)?;
    let allotment = allot(alloc, core, ends.as_slice())?;
    Ok(slots_in(allotment))
}

fn slots_in(allotment: Allotment) -> Slots
    ensures places { result.places ≡ allotment.places.items }
    ensures count { result.count ≡ allotment.count }
{
    let Allotment {
        places,
        free,
        count,
    } = allotment;
    drop(free);
    Slots {
        places: List::from_vec(places),
        count,
    }
}

fn allot(alloc: Global, core: &Core, ends: &[usize]) -> Result<Allotment, AllocError>
    requires ends { AreEnds core.now.inputs (form.reads core.now) ends.now }
    requires count { length ends.now ≡ length core.now.equations }
    requires few { length ends.now < 2 ^ 32 }
    ensures all { IfOk result (λ made. length made.places.items ≡ length core.now.equations) }
    ensures allotted { IfOk result (λ made. AreAllotted core.now made.places.items made.count (is_free made.free)) }
{
    let mut allotment = Allotment {
        places: Vec::new(alloc),
        free: BTreeSet::new(alloc),
        count: 0,
    };
    let gates = core.equation_slice();
    for gate in gates {
        allot_next(&mut allotment, core, ends, gate)?;
    }
    Ok(allotment)
}

// Gives the next equation its slot, and frees those that no register holds behind it.
fn allot_next(
    allotment: &mut Allotment,
    core: &Core,
    ends: &[usize],
    gate: &Gate,
) -> Result<(), AllocError>
    requires allotted { AreAllotted core.now allotment.old.places.items allotment.old.count
        (is_free allotment.old.free) }
    requires here { slice_get core.now.equations (length allotment.old.places.items) ≡ Some gate.now }
    requires registers { All (λ r. r < core.now.inputs + length allotment.old.places.items) (form.operands gate.now) }
    requires ends { AreEnds core.now.inputs (form.reads core.now) ends.now }
    requires within { length allotment.old.places.items < length ends.now }
    requires few { length ends.now < 2 ^ 32 }
    requires slots { allotment.old.count ≤ length allotment.old.places.items }
    ensures more { OnOk result (length allotment.new.places.items ≡ length allotment.old.places.items + 1) }
    ensures slots_more { OnOk result (allotment.new.count ≤ length allotment.old.places.items + 1) }
    ensures allotted { OnOk result
        (AreAllotted core.now allotment.new.places.items allotment.new.count (is_free allotment.new.free)) }
{
    let place = allotment.places.len();
    let slot = next_slot(allotment, core)?;
    release_operands(
        &mut allotment.free,
        core.inputs(),
        allotment.places.as_slice(),
        ends,
        place,
        Operands::of(gate),
    )?;
    release_unread(&mut allotment.free, ends[place], place, slot)
}

// Takes a slot for the next equation of a core.
fn next_slot(allotment: &mut Allotment, core: &Core) -> Result<u32, AllocError>
    requires allotted { AreAllotted core.now allotment.old.places.items allotment.old.count
        (is_free allotment.old.free) }
    requires slots { allotment.old.count ≤ length allotment.old.places.items }
    requires few { length allotment.old.places.items + 1 < 2 ^ 32 }
    ensures places { IfOk result (λ slot. allotment.new.places.items ≡ allotment.old.places.items ++ slot ∷ []) }
    ensures taken { IfOk result
        (IsTaken (is_free allotment.old.free) (is_free allotment.new.free) allotment.old.count) }
    ensures count { IfOk result (λ slot. allotment.new.count ≡ max allotment.old.count (slot + 1)) }
    ensures slots { IfOk result (λ slot. allotment.new.count ≤ length allotment.old.places.items + 1) }
{
    let _equations = core.equations();
    let slot = take_slot(&mut allotment.free, allotment.count);
    allotment.count = allotment.count.max(slot + 1);
    allotment.places.push(slot)?;
    Ok(slot)
}

// Takes the least free slot, or a new one where none is free.
fn take_slot(free: &mut BTreeSet<u32>, count: u32) -> u32
    ensures { IsTaken (is_free free.old) (is_free free.new) count result }
{
    match free.pop_first() {
        Some(slot) => slot,
        None => count,
    }
}

// Frees the slot of a register that nothing reads behind this place.
fn release_unread(
    free: &mut BTreeSet<u32>,
    end: usize,
    place: usize,
    slot: u32,
) -> Result<(), AllocError>
    requires { place < 2 ^ 32 }
    ensures { OnOk result ((s : ℕ) → is_free free.new s ≡ (is_free free.old s || (nat_le end (place + 1)
        && s == slot))) }
{
    if end > place + 1 {
        return Ok(());
    }
    release(free, slot)
}

fn release_operands(
    free: &mut BTreeSet<u32>,
    inputs: u32,
    places: &[u32],
    ends: &[usize],
    place: usize,
    operands: Operands,
) -> Result<(), AllocError>
    requires registers { All (λ r. r < inputs + length places.now) (numbers operands.first ++ numbers operands.second) }
    requires count { length places.now ≤ length ends.now }
    requires few { place < 2 ^ 32 }
    ensures { OnOk result ((s : ℕ) → is_free free.new s
        ≡ (is_free free.old s || list_any (is_released inputs places.now ends.now place s)
        (numbers operands.first ++ numbers operands.second))) }
{
    release_operand(free, inputs, places, ends, place, operands.first)?;
    release_operand(free, inputs, places, ends, place, operands.second)
}

// Frees the slot of an operand, if there is one, that is read at this place for the last time.
fn release_operand(
    free: &mut BTreeSet<u32>,
    inputs: u32,
    places: &[u32],
    ends: &[usize],
    place: usize,
    operand: Option<Reg>,
) -> Result<(), AllocError>
    requires registers { All (λ r. r < inputs + length places.now) (numbers operand) }
    requires count { length places.now ≤ length ends.now }
    requires few { place < 2 ^ 32 }
    ensures { OnOk result ((s : ℕ) → is_free free.new s
        ≡ (is_free free.old s || list_any (is_released inputs places.now ends.now place s) (numbers operand))) }
{
    match operand {
        Some(register) => release_register(free, inputs, places, ends, place, register),
        None => Ok(()),
    }
}

fn release_register(
    free: &mut BTreeSet<u32>,
    inputs: u32,
    places: &[u32],
    ends: &[usize],
    place: usize,
    register: Reg,
) -> Result<(), AllocError>
    requires register { register.0 < inputs + length places.now }
    requires count { length places.now ≤ length ends.now }
    requires few { place < 2 ^ 32 }
    ensures { OnOk result ((s : ℕ) → is_free free.new s
        ≡ (is_free free.old s || is_released inputs places.now ends.now place s register.0)) }
{
    if register.0 < inputs {
        return Ok(());
    }
    let made = (register.0 - inputs) as usize;
    if ends[made] != place + 1 {
        return Ok(());
    }
    release(free, places[made])
}

fn release(free: &mut BTreeSet<u32>, slot: u32) -> Result<(), AllocError>
    ensures { OnOk result ((s : ℕ) → is_free free.new s ≡ (is_free free.old s || s == slot)) }
{
    match free.insert(slot) {
        Ok(_) => Ok(()),
        Err(_) => Err(AllocError),
    }
}
