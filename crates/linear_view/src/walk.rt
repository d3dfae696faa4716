// Where a walk over the equations stands, what they read, and which registers are still to be read.
ghost use Rattle.std.specs.Prelude.{◌≡◌, ℕ, ◌+◌, ◌<◌, ◌≤◌, ◌^◌, ◌++◌, [], ◌∷◌, length, vec_len, slice_get, slice_index, slice_index_or, Some, IfOk, IfSome};
ghost use Rattle.std.specs.Option.{option_to_list};
ghost use Rattle.usuba0.specs.Circuit.{AreEquations, products_of, refreshes_of};
ghost use Rattle.linear_view.specs.Walk.{reads, takes, TellsLastReads};

use std::alloc::{AllocError, Global};
use usuba0::{Gate, Reg};

// The width, and how many equations, products and refreshes came so far.
#[derive(Clone, Copy)]
pub(crate) struct Stage {
    pub(crate) width: u32,
    pub(crate) equations: usize,
    pub(crate) products: u32,
    pub(crate) refreshes: u32,
}

impl Stage {
    // Before the first equation.
    pub(crate) fn first(width: u32) -> Stage
        ensures { result ≡ record { width = width; equations = 0; products = 0; refreshes = 0 } }
    {
        Stage {
            width,
            equations: 0,
            products: 0,
            refreshes: 0,
        }
    }

    // After one more equation.
    pub(crate) fn after(self, gate: &Gate) -> Stage
        requires equations { self.equations + 1 < 2 ^ 64 }
        requires products { self.products + 1 < 2 ^ 32 }
        requires refreshes { self.refreshes + 1 < 2 ^ 32 }
        ensures { result ≡ record {
          width = self.width;
          equations = self.equations + 1;
          products = self.products + products_of (gate.now ∷ []);
          refreshes = self.refreshes + refreshes_of (gate.now ∷ []);
        } }
    {
        let products = match gate {
            Gate::And(_, _) => self.products + 1,
            _ => self.products,
        };
        let refreshes = match gate {
            Gate::Refresh(_) => self.refreshes + 1,
            _ => self.refreshes,
        };
        Stage {
            width: self.width,
            equations: self.equations + 1,
            products,
            refreshes,
        }
    }
}

// The registers that the equation reads, none to two of them.
pub(crate) fn reads(gate: &Gate) -> (Option<Reg>, Option<Reg>)
    ensures { option_to_list result.0 ++ option_to_list result.1 ≡ reads gate.now }
{
    match *gate {
        Gate::Const(_) => (None, None),
        Gate::Xor(a, b) | Gate::And(a, b) => (Some(a), Some(b)),
        Gate::Not(a)
        | Gate::Mask(_, a)
        | Gate::Shl(_, a)
        | Gate::Shr(_, a)
        | Gate::Rotl(_, a)
        | Gate::Refresh(a) => (Some(a), None),
    }
}

// The registers whose rows the equation takes, none to two of them, where its own register is to be read or not.
fn takes(gate: &Gate, is_read: bool) -> (Option<Reg>, Option<Reg>)
    ensures { option_to_list result.0 ++ option_to_list result.1 ≡ takes is_read gate.now }
{
    match *gate {
        Gate::And(a, b) => (Some(a), Some(b)),
        Gate::Const(_) | Gate::Refresh(_) => (None, None),
        Gate::Xor(a, b) => {
            if is_read {
                (Some(a), Some(b))
            } else {
                (None, None)
            }
        }
        Gate::Not(a) | Gate::Mask(_, a) | Gate::Shl(_, a) | Gate::Shr(_, a) | Gate::Rotl(_, a) => {
            if is_read {
                (Some(a), None)
            } else {
                (None, None)
            }
        }
    }
}

// For each register the number of the last equation that takes its rows for a product, or for the register that is wanted at the
// end, or 0. What neither a product nor that register needs is not read.
pub(crate) fn needed_reads(
    alloc: Global,
    width: u32,
    inputs: u32,
    gates: &[Gate],
    wanted: Option<Reg>,
) -> Result<Vec<usize>, AllocError>
    requires few { inputs + length gates.now < 2 ^ 32 }
    requires earlier { AreEquations width inputs gates.now }
    requires wanted { IfSome wanted (λ a. a.0 < inputs + length gates.now) }
    ensures told { IfOk result (λ last. TellsLastReads inputs gates.now last.items) }
    ensures wanted { IfOk result (λ last. IfSome wanted (λ a. length gates.now ≤ slice_index last.items a.0)) }
{
    let first = inputs as usize;
    let mut last = vec![in alloc; 0; first + gates.len()]?;
    mark_read(&mut last, wanted, gates.len());
    for k in (0..gates.len()).rev() {
        let is_read = k < last[first + k];
        let (one, other) = takes(&gates[k], is_read);
        mark_read(&mut last, one, k);
        mark_read(&mut last, other, k);
    }
    Ok(last)
}

// Equation `k` reads the register, if there is one.
fn mark_read(last: &mut Vec<usize>, register: Option<Reg>, k: usize)
    requires within { IfSome register (λ a. a.0 < vec_len last.old) }
    ensures count { vec_len last.new ≡ vec_len last.old }
    ensures late { IfSome register (λ a. k ≤ slice_index last.new.items a.0) }
    ensures rises { (r : ℕ) → slice_index last.old.items r ≤ slice_index last.new.items r }
    ensures others { (r : ℕ) → IfSome register (λ a. a.0 < r) → slice_index last.new.items r ≡ slice_index last.old.items r }
{
    if let Some(a) = register {
        if last[a.0 as usize] < k {
            last[a.0 as usize] = k;
        }
    }
}
