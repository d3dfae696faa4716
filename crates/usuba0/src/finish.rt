//! The end of a builder: the circuit of its outputs.
ghost use Rattle.std.specs.Prelude.{◌≡◌, ◌⊎◌, ℕ, ◌+◌, ◌-◌, ◌<◌, ◌≤◌, ◌^◌, ◌↔◌, ◌∷◌, ◌++◌, [], All, List, map, length, slice_get, slice_set, slice_index_or, vec_len, replicate, Some, IsTrue, IfOk, OnOk, MatchOption};
ghost use Rattle.usuba0.specs.Builder.{IsOnceEach};
ghost use Rattle.usuba0.specs.Circuit.{IsSmall, HasFewColumns, weight, columns};
ghost use Rattle.usuba0.specs.CoreOfTerms.{core_of_terms, first_places, postorder, walk as walk_of, register_of, equations_of};
ghost use Rattle.usuba0.specs.State.Heads.{IsBuilder};
ghost use Rattle.usuba0.specs.Term.{Term, Input};
ghost use Rattle.usuba0.specs.State.Walk.{all_terms, terms_in, AreOperands, HasPlace, IsNextOperand, gate_of_head, place_in, IsWalk, IsUnderWay, order_at_end, unplaced, work};
ghost use Rattle.usuba0.specs.declared.finish.CloseFault.TheVariants.{Memory};
ghost use Rattle.std.specs.List.{range_with_len};

use crate::builder::Head;
use crate::circuit::{Core, Gate, Reg};
use crate::limit::{MAX_COLUMNS, MAX_TERMS, MAX_WEIGHT};
use std::alloc::{AllocError, Global};
use thiserror::Error;

/// Why a builder gives no circuit.
#[derive(Debug, Drop, Error)]
pub enum CloseFault {
    #[error("the circuit has too many equations for its width")]
    CoreTooLarge,
    #[error("the circuit has too many columns")]
    ColumnsTooMany,
    #[error("out of memory")]
    Memory(AllocError),
}

impl From<AllocError> for CloseFault {
    ghost from_gives = { λ error fault. fault ≡ Memory error };

    fn from(error: AllocError) -> CloseFault {
        CloseFault::Memory(error)
    }
}

const UNPLACED: u32 = u32::MAX;

// The terms of a builder that are reached from its outputs. A walk over their numbers is one over the terms, since no
// term has two numbers; it keeps its own stack, so that a long chain of terms is no deep recursion.
#[derive(Drop)]
pub struct Walk {
    // The register of each term of the builder, or `UNPLACED`.
    places: Vec<u32>,
    // The terms that are no inputs, in postorder.
    order: Vec<u32>,
}

impl Walk {
    // The walk of all the outputs.
    pub fn of(
        alloc: Global,
        width: u32,
        inputs: u32,
        heads: &[Head],
        outputs: &[Reg],
    ) -> Result<Walk, AllocError>
        requires builder { IsBuilder width inputs heads.now }
        requires held { All (λ r. r.0 < inputs + length heads.now) outputs.now }
        ensures walk { IfOk result (λ w. IsWalk width inputs heads.now w.places.items w.order.items) }
        ensures order { IfOk result (λ w.
            terms_in (all_terms inputs heads.now) w.order.items
            ≡ first_places [] (walk_of (map (λ r. slice_index_or (all_terms inputs heads.now) r.0 (Input 0)) outputs.now))) }
    {
        let mut walk = Walk::start(alloc, width, inputs, heads)?;
        for output in outputs {
            walk.visit(alloc, width, inputs, heads, output.0)?;
        }
        Ok(walk)
    }

    // The inputs have their registers, and no other term has one.
    fn start(alloc: Global, width: u32, inputs: u32, heads: &[Head]) -> Result<Walk, AllocError>
        requires { IsBuilder width inputs heads.now }
        ensures walk { IfOk result (λ w. IsWalk width inputs heads.now w.places.items w.order.items) }
        ensures none { IfOk result (λ w. w.order.items ≡ []) }
    {
        Ok(Walk {
            places: input_places(alloc, inputs, heads.len())?,
            order: Vec::new(alloc),
        })
    }

    fn is_placed(&self, term: Reg) -> bool
        requires { term.0 < vec_len self.now.places }
        ensures { IsTrue result ↔ HasPlace self.now.places.items term }
    {
        self.places[term.0 as usize] != UNPLACED
    }

    // Places the term and all that it is made of.
    fn visit(
        &mut self,
        alloc: Global,
        width: u32,
        inputs: u32,
        heads: &[Head],
        term: u32,
    ) -> Result<(), AllocError>
        requires builder { IsBuilder width inputs heads.now }
        requires walk { IsWalk width inputs heads.now self.old.places.items self.old.order.items }
        requires held { term < inputs + length heads.now }
        ensures walk { OnOk result (IsWalk width inputs heads.now self.new.places.items self.new.order.items) }
        ensures order { OnOk result
            (terms_in (all_terms inputs heads.now) self.new.order.items
            ≡ first_places (terms_in (all_terms inputs heads.now) self.old.order.items)
            (postorder (slice_index_or (all_terms inputs heads.now) term (Input 0)))) }
    {
        if self.is_placed(Reg(term)) {
            return Ok(());
        }
        let mut pending = Vec::new(alloc);
        pending.push(term)?;
        while !pending.is_empty() {
            self.advance(width, inputs, heads, &mut pending)?;
        }
        Ok(())
    }

    // One step: the last term that waits is placed, or waits for one of its operands.
    fn advance(
        &mut self,
        width: u32,
        inputs: u32,
        heads: &[Head],
        pending: &mut Vec<u32>,
    ) -> Result<(), AllocError>
        requires builder { IsBuilder width inputs heads.now }
        requires some { 0 < vec_len pending.old }
        requires under_way { IsUnderWay width inputs heads.now self.old.places.items self.old.order.items pending.old.items }
        ensures under_way { OnOk result (IsUnderWay width inputs heads.now self.new.places.items self.new.order.items pending.new.items) }
        ensures same_end { OnOk result
            (order_at_end inputs heads.now self.new.order.items pending.new.items
            ≡ order_at_end inputs heads.now self.old.order.items pending.old.items) }
        ensures nearer { OnOk result (work self.new.places.items pending.new.items < work self.old.places.items pending.old.items) }
    {
        let top = pending[pending.len() - 1];
        match self.missing_operand(&heads[(top - inputs) as usize]) {
            Some(operand) => pending.push(operand.0)?,
            None => {
                self.place(inputs, top)?;
                pending.pop();
            }
        }
        Ok(())
    }

    // Gives the term the next register.
    fn place(&mut self, inputs: u32, term: u32) -> Result<(), AllocError>
        requires room { inputs + vec_len self.old.order < 2 ^ 32 }
        requires within { term < vec_len self.old.places }
        ensures order { OnOk result (self.new.order.items ≡ self.old.order.items ++ term ∷ []) }
        ensures places { OnOk result (self.new.places.items ≡ slice_set self.old.places.items term (inputs + vec_len self.old.order)) }
    {
        let register = inputs + self.order.len() as u32;
        self.order.push(term)?;
        self.places[term as usize] = register;
        Ok(())
    }

    // The first operand that has no register yet.
    fn missing_operand(&self, head: &Head) -> Option<Reg>
        requires { AreOperands (λ a. a.0 < vec_len self.now.places) head.now }
        ensures next { MatchOption result (AreOperands (HasPlace self.now.places.items) head.now)
            (λ r. IsNextOperand self.now.places.items r head.now × (HasPlace self.now.places.items r → ⊥)) }
    {
        match *head {
            Head::Const(_) => None,
            Head::Xor(a, b) | Head::And(a, b) => {
                if !self.is_placed(a) {
                    Some(a)
                } else if !self.is_placed(b) {
                    Some(b)
                } else {
                    None
                }
            }
            Head::Not(a)
            | Head::Mask(_, a)
            | Head::Shl(_, a)
            | Head::Shr(_, a)
            | Head::Rotl(_, a)
            | Head::Refresh(_, a) => { if self.is_placed(a) { None } else { Some(a) } }
        }
    }

    fn register(&self, term: Reg) -> Reg
        requires { term.0 < vec_len self.now.places }
        ensures { result ≡ place_in self.now.places.items term }
    {
        Reg(self.places[term.0 as usize])
    }

    fn gate(&self, head: &Head) -> Gate
        requires { AreOperands (λ a. a.0 < vec_len self.now.places) head.now }
        ensures { result ≡ gate_of_head (place_in self.now.places.items) head.now }
    {
        match *head {
            Head::Const(c) => Gate::Const(c),
            Head::Xor(a, b) => Gate::Xor(self.register(a), self.register(b)),
            Head::Not(a) => Gate::Not(self.register(a)),
            Head::Mask(c, a) => Gate::Mask(c, self.register(a)),
            Head::And(a, b) => Gate::And(self.register(a), self.register(b)),
            Head::Shl(k, a) => Gate::Shl(k, self.register(a)),
            Head::Shr(k, a) => Gate::Shr(k, self.register(a)),
            Head::Rotl(k, a) => Gate::Rotl(k, self.register(a)),
            Head::Refresh(_, a) => Gate::Refresh(self.register(a)),
        }
    }
}

// The registers of the inputs, and then no register for each other term.
fn input_places(alloc: Global, inputs: u32, others: usize) -> Result<Vec<u32>, AllocError>
    requires { inputs + others ≤ MAX_TERMS }
    ensures { IfOk result (λ places. places.items ≡ range_with_len 0 inputs ++ replicate others unplaced) }
{
    let mut places = Vec::with_capacity(alloc, inputs as usize + others)?;
    for k in 0..inputs {
        places.push(k)?;
    }
    for _ in 0..others {
        places.push(UNPLACED)?;
    }
    Ok(places)
}

// The circuit of a walk, where it is within the limits.
pub fn close(
    alloc: Global,
    width: u32,
    inputs: u32,
    heads: &[Head],
    outputs: &[Reg],
    walk: &Walk,
) -> Result<Core, CloseFault>
    requires builder { IsBuilder width inputs heads.now }
    requires some { 0 < length outputs.now }
    requires few { length outputs.now ≤ MAX_TERMS }
    requires held { All (λ r. r.0 < inputs + length heads.now) outputs.now }
    requires walk { IsWalk width inputs heads.now walk.now.places.items walk.now.order.items }
    requires order { terms_in (all_terms inputs heads.now) walk.now.order.items
        ≡ first_places [] (walk_of (map (λ r. slice_index_or (all_terms inputs heads.now) r.0 (Input 0)) outputs.now)) }
    ensures core { let outs = map (λ r. slice_index_or (all_terms inputs heads.now) r.0 (Input 0)) outputs.now in
        IfOk result (λ core. core ≡ core_of_terms width inputs outs) }
    ensures within { IfOk result (λ core. IsSmall core × HasFewColumns core) }
    ensures too_large { let outs = map (λ r. slice_index_or (all_terms inputs heads.now) r.0 (Input 0)) outputs.now in
        result ≡ Err CloseFault.CoreTooLarge → MAX_WEIGHT < weight (core_of_terms width inputs outs) }
    ensures too_many { let outs = map (λ r. slice_index_or (all_terms inputs heads.now) r.0 (Input 0)) outputs.now in
        let core = core_of_terms width inputs outs in
        result ≡ Err CloseFault.ColumnsTooMany → IsSmall core × (MAX_COLUMNS < columns core) }
{
    let equations = equations(alloc, width, inputs, heads, walk)?;
    let outputs = output_registers(alloc, outputs, walk)?;
    let core = Core::new(width, inputs, equations, outputs);
    if core.weight() > MAX_WEIGHT {
        Err(CloseFault::CoreTooLarge)
    } else if core.columns() > MAX_COLUMNS {
        Err(CloseFault::ColumnsTooMany)
    } else {
        Ok(core)
    }
}

fn output_registers(alloc: Global, outputs: &[Reg], walk: &Walk) -> Result<Vec<Reg>, AllocError>
    requires { All (λ r. r.0 < vec_len walk.now.places) outputs.now }
    ensures { IfOk result (λ registers. registers.items ≡ map (place_in walk.now.places.items) outputs.now) }
{
    let mut registers = Vec::with_capacity(alloc, outputs.len())?;
    for output in outputs {
        registers.push(walk.register(*output))?;
    }
    Ok(registers)
}

fn equations(
    alloc: Global,
    width: u32,
    inputs: u32,
    heads: &[Head],
    walk: &Walk,
) -> Result<Vec<Gate>, AllocError>
    requires builder { IsBuilder width inputs heads.now }
    requires walk { IsWalk width inputs heads.now walk.now.places.items walk.now.order.items }
    ensures { let made = terms_in (all_terms inputs heads.now) walk.now.order.items in
        IfOk result (λ equations. equations.items ≡ equations_of (register_of inputs made) made) }
{
    let mut equations = Vec::with_capacity(alloc, walk.order.len())?;
    for term in &walk.order {
        equations.push(walk.gate(&heads[(*term - inputs) as usize]))?;
    }
    Ok(equations)
}
