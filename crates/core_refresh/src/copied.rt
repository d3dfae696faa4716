ghost use Rattle.std.specs.Prelude.{◌≡◌, ◌+◌, ◌<◌, ◌^◌, ◌++◌, ◌∷◌, [], length, map, IfOk, OnOk, All, if◌then◌else◌};
ghost use Rattle.usuba0.specs.Circuit.{products_of, registers};
ghost use Rattle.usuba0.specs.declared.circuit.Gate.TheVariants as gate;
ghost use Rattle.core_refresh.specs.RefreshedCore.{marked, takes_refresh, renumbered as renumbered_gate, refreshed_product, refreshed_gate};
ghost use Rattle.core_refresh.specs.State.Copying.{number_in, next_register, ReadsBelow, AreNumbers};

use std::alloc::{AllocError, Global};
use std::marker::Model;
use usuba0::{Core, Gate, Reg};

/// Equations that are copied one after the other, with refreshes among them.
#[derive(Drop)]
pub(crate) struct Copied {
    inputs: u32,
    // by old register: the new one
    numbers: Vec<Reg>,
    equations: Vec<Gate>,
    // how many of the old equations were products
    products: usize,
}

impl Model for Copied {
    ghost use Rattle.core_refresh.specs.State.Copying.{Copying};

    ghost Value = { Copying };

    ghost view = { λ c. record { inputs = c.inputs; numbers = c.numbers.items; equations = c.equations.items; products = c.products } };
}

// The new number of a register.
fn number_of(numbers: &[Reg], r: Reg) -> Reg
    requires { r.0 < length numbers.now }
    ensures { result ≡ number_in numbers.now r }
{
    numbers[r.0 as usize]
}

// The equation with the new numbers of the registers that it reads.
fn renumbered(numbers: &[Reg], gate: &Gate) -> Gate
    requires { ReadsBelow (length numbers.now) gate.now }
    ensures { result ≡ renumbered_gate (number_in numbers.now) gate.now }
{
    match *gate {
        Gate::Const(c) => Gate::Const(c),
        Gate::Xor(a, b) => Gate::Xor(number_of(numbers, a), number_of(numbers, b)),
        Gate::Not(a) => Gate::Not(number_of(numbers, a)),
        Gate::Mask(c, a) => Gate::Mask(c, number_of(numbers, a)),
        Gate::And(a, b) => Gate::And(number_of(numbers, a), number_of(numbers, b)),
        Gate::Shl(k, a) => Gate::Shl(k, number_of(numbers, a)),
        Gate::Shr(k, a) => Gate::Shr(k, number_of(numbers, a)),
        Gate::Rotl(k, a) => Gate::Rotl(k, number_of(numbers, a)),
        Gate::Refresh(a) => Gate::Refresh(number_of(numbers, a)),
    }
}

impl Copied {
    /// No equation yet; the inputs keep their numbers.
    pub(crate) fn start(alloc: Global, inputs: u32) -> Result<Copied, AllocError>
        ensures inputs { IfOk result (λ copied. copied.inputs ≡ inputs) }
        ensures numbers { IfOk result (λ copied. AreNumbers (λ r. r) inputs copied.numbers) }
        ensures equations { IfOk result (λ copied. copied.equations ≡ []) }
        ensures products { IfOk result (λ copied. copied.products ≡ 0) }
    {
        let mut numbers = Vec::new(alloc);
        for r in 0..inputs {
            numbers.push(Reg(r))?;
        }
        Ok(Copied {
            inputs,
            numbers,
            equations: Vec::new(alloc),
            products: 0,
        })
    }

    // Adds an equation. The answer is the register that it makes.
    fn push(&mut self, gate: Gate) -> Result<Reg, AllocError>
        requires { next_register self.old < 2 ^ 32 }
        ensures made { IfOk result (λ r. r ≡ record { 0 = next_register self.old }) }
        ensures copied { OnOk result (self.new ≡ record self.old { equations = self.old.equations ++ gate ∷ [] }) }
    {
        let made = Reg(self.inputs + self.equations.len() as u32);
        self.equations.push(gate)?;
        Ok(made)
    }

    // Adds the product of registers that have their new numbers, with a refresh before it where this is asked for. The
    // answer is the register that the product makes.
    fn push_product(&mut self, is_refreshed: bool, a: Reg, b: Reg) -> Result<Reg, AllocError>
        requires { next_register self.old + 1 < 2 ^ 32 }
        ensures made { IfOk result (λ r. r ≡ record { 0 = next_register self.old + (if is_refreshed then 1 else 0) }) }
        ensures copied { OnOk result (self.new ≡ record self.old {
          equations = self.old.equations
              ++ (if is_refreshed then refreshed_product (next_register self.old) a b else gate.And a b ∷ []);
        }) }
    {
        if !is_refreshed {
            return self.push(Gate::And(a, b));
        }
        let refreshed = self.push(Gate::Refresh(a))?;
        self.push(Gate::And(refreshed, b))
    }

    // Adds the equations that stand for an old one. The answer is the new number of the register that this made.
    fn push_refreshed(&mut self, set: &[bool], gate: &Gate) -> Result<Reg, AllocError>
        requires room { next_register self.old + 1 < 2 ^ 32 }
        requires product { products_of (gate.now ∷ []) ≡ 1 → self.old.products < length set.now }
        requires reads { ReadsBelow (length self.old.numbers) gate.now }
        ensures made { IfOk result (λ r. r ≡ record { 0 = next_register self.old + (if takes_refresh (marked set.now) self.old.products gate.now then 1 else 0) }) }
        ensures copied { OnOk result (self.new ≡ record self.old {
          equations = self.old.equations
              ++ refreshed_gate (number_in self.old.numbers) (marked set.now) self.old.products (next_register self.old) gate.now;
          products = self.old.products + products_of (gate.now ∷ []);
        }) }
    {
        let gate = renumbered(self.numbers.as_slice(), gate);
        match gate {
            Gate::And(a, b) => {
                let is_refreshed = set[self.products];
                self.products += 1;
                self.push_product(is_refreshed, a, b)
            }
            other => self.push(other),
        }
    }

    /// Copies an equation, with a refresh before it where it is a product of the set.
    pub(crate) fn copy(&mut self, set: &[bool], gate: &Gate) -> Result<(), AllocError>
        requires room { next_register self.old + 1 < 2 ^ 32 }
        requires product { products_of (gate.now ∷ []) ≡ 1 → self.old.products < length set.now }
        requires reads { ReadsBelow (length self.old.numbers) gate.now }
        ensures { OnOk result (self.new ≡ record {
          inputs = self.old.inputs;
          numbers = self.old.numbers ++ record { 0 = next_register self.old + (if takes_refresh (marked set.now) self.old.products gate.now then 1 else 0) } ∷ [];
          equations = self.old.equations
              ++ refreshed_gate (number_in self.old.numbers) (marked set.now) self.old.products (next_register self.old) gate.now;
          products = self.old.products + products_of (gate.now ∷ []);
        }) }
    {
        let made = self.push_refreshed(set, gate)?;
        self.numbers.push(made)?;
        Ok(())
    }

    /// The new numbers of a core's outputs.
    pub(crate) fn outputs(&self, alloc: Global, core: &Core) -> Result<Vec<Reg>, AllocError>
        requires { registers core.now ≡ length self.now.numbers }
        ensures numbers { IfOk result (λ outputs. outputs.items ≡ map (number_in self.now.numbers) core.now.outputs) }
        ensures few { IfOk result (λ outputs. length outputs.items < 2 ^ 32) }
    {
        let registers = core.output_slice();
        let mut outputs = Vec::with_capacity(alloc, core.outputs() as usize)?;
        for r in registers {
            outputs.push(number_of(self.numbers.as_slice(), *r))?;
        }
        Ok(outputs)
    }

    /// The equations.
    pub(crate) fn into_equations(self) -> Vec<Gate>
        ensures { result.items ≡ self.equations }
    {
        let Copied {
            inputs: _,
            numbers: _numbers,
            equations,
            products: _,
        } = self;
        equations
    }
}
