ghost use Rattle.std.specs.Prelude.{◌≡◌, ℕ, ◌+◌, ◌<◌, ◌≤◌, ◌^◌, ◌↔◌, ◌∷◌, List, length, slice_get, IsTrue};
ghost use Rattle.std.specs.Option.{option_copied};
ghost use Rattle.usuba0.specs.Circuit.{products_of, refreshes_of, weight, columns, IsCore, IsSmall, HasFewColumns};
ghost use Rattle.usuba0.specs.Term.{bits_of_width};

use crate::limit::{MAX_COLUMNS, MAX_WEIGHT};
use std::marker::Model;

/// A register, by its number.
#[derive(Debug, Clone, Copy, PartialEq, Eq, PartialOrd, Ord, Hash)]
pub struct Reg(pub u32);

/// The right side of an equation.
#[derive(Debug, Clone, Copy, PartialEq, Eq)]
pub enum Gate {
    Const(u64),
    Xor(Reg, Reg),
    Not(Reg),
    Mask(u64, Reg),
    And(Reg, Reg),
    Shl(u32, Reg),
    Shr(u32, Reg),
    Rotl(u32, Reg),
    Refresh(Reg),
}

impl Gate {
    // 1 for a product, else 0.
    fn products(&self) -> u32
        ensures more { (gates : List Gate) → products_of (self.now ∷ gates) ≡ products_of gates + result }
        ensures small { result ≤ 1 }
    {
        match self {
            Gate::And(_, _) => 1,
            _ => 0,
        }
    }

    // 1 for a refresh, else 0.
    fn refreshes(&self) -> u32
        ensures more { (gates : List Gate) → refreshes_of (self.now ∷ gates) ≡ refreshes_of gates + result }
        ensures small { result ≤ 1 }
    {
        match self {
            Gate::Refresh(_) => 1,
            _ => 0,
        }
    }
}

/// A circuit in the order of its equations. Registers 0 to `inputs() - 1` are the inputs, and equation k makes register
/// `inputs() + k`.
#[derive(Debug, Drop)]
pub struct Core {
    width: u32,
    inputs: u32,
    equations: Vec<Gate>,
    outputs: Vec<Reg>,
    products: u32,
    refreshes: u32,
}

impl Model for Core {
    ghost use Rattle.usuba0.specs.Circuit.{Circuit, AreFields};

    ghost Value = { Circuit };

    ghost view = { λ c. record { width = c.width; inputs = c.inputs; equations = c.equations.items; outputs = c.outputs.items } };

    ghost invariant = { λ c. AreFields c.width c.inputs c.equations.items c.outputs.items c.products c.refreshes };
}

impl Core {
    /// The bits of each register, 1 to 64.
    pub fn width(&self) -> u32
        ensures value { result ≡ self.now.width }
        ensures core { IsCore self.now }
    {
        self.width
    }

    pub fn inputs(&self) -> u32
        ensures { result ≡ self.now.inputs }
    {
        self.inputs
    }

    /// How many equations there are.
    pub fn equations(&self) -> u32
        ensures { result ≡ length self.now.equations }
    {
        self.equations.len() as u32
    }

    /// The right side of equation `k`, which makes register `inputs() + k`.
    pub fn equation(&self, k: u32) -> Option<&Gate>
        ensures { option_copied result ≡ slice_get self.now.equations k }
    {
        self.equations.get(k as usize)
    }

    /// How many outputs there are.
    pub fn outputs(&self) -> u32
        ensures { result ≡ length self.now.outputs }
    {
        self.outputs.len() as u32
    }

    pub fn output(&self, k: u32) -> Option<Reg>
        ensures { result ≡ slice_get self.now.outputs k }
    {
        self.outputs.get(k as usize).copied()
    }

    /// How many of the equations are `and`.
    pub fn products(&self) -> u32
        ensures { result ≡ products_of self.now.equations }
    {
        self.products
    }

    /// How many of the equations are `refresh`.
    pub fn refreshes(&self) -> u32
        ensures { result ≡ refreshes_of self.now.equations }
    {
        self.refreshes
    }

    /// Whether both limits of a core hold: `(equations + products) * width` is at most 131,072, and
    /// `(inputs + 2 products + refreshes) * width` is at most 32,768.
    pub fn fits(&self) -> bool
        ensures { IsTrue result ↔ (IsSmall self.now × HasFewColumns self.now) }
    {
        self.weight() <= MAX_WEIGHT && self.columns() <= MAX_COLUMNS
    }

    // (equations + products) * width
    pub(crate) fn weight(&self) -> u64
        ensures { result ≡ weight self.now }
    {
        (self.equations.len() as u64 + u64::from(self.products)) * u64::from(self.width)
    }

    // (inputs + 2 products + refreshes) * width
    pub(crate) fn columns(&self) -> u64
        ensures { result ≡ columns self.now }
    {
        let shown = u64::from(self.inputs)
            + 2 * u64::from(self.products)
            + u64::from(self.refreshes);
        shown * u64::from(self.width)
    }

    /// The circuit of these parts.
    pub fn new(width: u32, inputs: u32, equations: Vec<Gate>, outputs: Vec<Reg>) -> Core
        requires core { IsCore (record { width = width; inputs = inputs; equations = equations.items; outputs = outputs.items }) }
        requires few_equations { length equations.items < 2 ^ 32 }
        requires few_outputs { length outputs.items < 2 ^ 32 }
        ensures { result ≡ record { width = width; inputs = inputs; equations = equations.items; outputs = outputs.items } }
    {
        let products = count_products(equations.as_slice());
        let refreshes = count_refreshes(equations.as_slice());
        Core {
            width,
            inputs,
            equations,
            outputs,
            products,
            refreshes,
        }
    }

    /// The equations, in order.
    pub fn equation_slice(&self) -> &[Gate]
        ensures gates { result.now ≡ self.now.equations }
        ensures core { IsCore self.now }
    {
        self.equations.as_slice()
    }

    /// The outputs, in order.
    pub fn output_slice(&self) -> &[Reg]
        ensures registers { result.now ≡ self.now.outputs }
        ensures core { IsCore self.now }
    {
        self.outputs.as_slice()
    }
}

fn count_products(gates: &[Gate]) -> u32
    requires { length gates.now < 2 ^ 32 }
    ensures { result ≡ products_of gates.now }
{
    let mut count = 0;
    for gate in gates {
        count += gate.products();
    }
    count
}

fn count_refreshes(gates: &[Gate]) -> u32
    requires { length gates.now < 2 ^ 32 }
    ensures { result ≡ refreshes_of gates.now }
{
    let mut count = 0;
    for gate in gates {
        count += gate.refreshes();
    }
    count
}
