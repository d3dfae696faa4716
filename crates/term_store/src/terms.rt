ghost use Rattle.std.specs.Prelude.{◌≡◌, ◌<◌, ◌≤◌, ◌+◌, ◌^◌, All, length, map, IfOk};
ghost use Rattle.usuba0.specs.Builder.{Holds, Names, input_terms, term_of};
ghost use Rattle.usuba0.specs.Circuit.{IsSmall, HasFewColumns, weight, columns};
ghost use Rattle.usuba0.specs.CoreOfTerms.{core_of_terms};
ghost use Rattle.usuba0.specs.Term.{Input};

use std::alloc::{AllocError, Global};
use usuba0::{CloseFault, Core, CoreBuilder, MAX_COLUMNS, MAX_TERMS, MAX_WEIGHT, Reg};

/// The terms of a circuit that is being made, each behind a register.
#[derive(Drop)]
pub struct Terms {
    pub builder: CoreBuilder,
}

impl Terms {
    /// The terms of the inputs alone.
    pub fn new(alloc: Global, width: u32, inputs: u32) -> Result<Terms, AllocError>
        requires some_width { 0 < width }
        requires width_fits { width ≤ 64 }
        requires some_input { 0 < inputs }
        requires few_inputs { inputs < MAX_TERMS }
        ensures { IfOk result (λ terms. terms.builder ≡ record { width = width; inputs = inputs; terms = input_terms inputs }) }
    {
        let builder = CoreBuilder::new(alloc, width, inputs)?;
        Ok(Terms { builder })
    }

    /// The register of input `k`.
    pub fn input(&self, k: u32) -> Reg
        requires { k < self.now.builder.inputs }
        ensures { Names self.now.builder result (Input k) }
    {
        self.builder.input(k)
    }

    /// The core of the terms that these registers stand for. `CoreTooLarge` is tested before `ColumnsTooMany`.
    pub fn finish(self, alloc: Global, outputs: &[Reg]) -> Result<Core, CloseFault>
        requires some { 0 < length outputs.now }
        requires few { length outputs.now ≤ MAX_TERMS }
        requires held { All (Holds self.builder) outputs.now }
        ensures core { IfOk result (λ core.
            core ≡ core_of_terms self.builder.width self.builder.inputs (map (term_of self.builder) outputs.now)) }
        ensures within { IfOk result (λ core. IsSmall core × HasFewColumns core) }
        ensures too_large { result ≡ Err CloseFault.CoreTooLarge
            → MAX_WEIGHT < weight (core_of_terms self.builder.width self.builder.inputs (map (term_of self.builder) outputs.now)) }
        ensures too_many { let core = core_of_terms self.builder.width self.builder.inputs (map (term_of self.builder) outputs.now) in
            result ≡ Err CloseFault.ColumnsTooMany → IsSmall core × (MAX_COLUMNS < columns core) }
    {
        self.builder.finish(alloc, outputs)
    }
}
