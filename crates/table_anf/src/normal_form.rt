ghost use Rattle.std.specs.Prelude.{◌≡◌, ℕ, ◌<◌, ◌≤◌, ◌^◌, ◌↔◌, length, slice_index, EachIndex, IsTrue, IfOk};
ghost use Rattle.table_anf.specs.Coefficients.{coefficient};
ghost use Rattle.table_anf.specs.State.Transform.{with_pass};

use std::alloc::{AllocError, Global};
use std::marker::Model;

/// The algebraic normal form of a table: a polynomial over bits for each output element. Contracts see the table.
#[derive(Debug, Drop)]
pub struct NormalForm {
    inputs: u32,
    outputs: u32,
    // The coefficients of each monomial, as the bits of a word: that of output element 0 is the most significant.
    words: Vec<u64>,
}

impl Model for NormalForm {
    ghost use Rattle.table_anf.specs.Coefficients.{Table, table_code};
    ghost use Rattle.table_anf.specs.State.Transform.{transformed, AreFields};

    ghost Value = { Table };

    ghost coded = { table_code };

    ghost view = { λ f. record {
      inputs = f.inputs;
      outputs = f.outputs;
      entries = transformed f.inputs f.words.items;
    } };

    ghost invariant = { λ f. AreFields f.inputs f.outputs f.words.items };
}

impl NormalForm {
    /// How many elements the table's inputs have.
    pub fn inputs(&self) -> u32
        ensures { result ≡ self.now.inputs }
    {
        self.inputs
    }

    /// How many elements the table's outputs have.
    pub fn outputs(&self) -> u32
        ensures { result ≡ self.now.outputs }
    {
        self.outputs
    }

    /// Whether the polynomial of the output element has the monomial of these input elements, element 0 being the most
    /// significant bit.
    pub fn coefficient(&self, output: u32, monomial: u32) -> bool
        requires output { output < self.now.outputs }
        requires monomial { monomial < 2 ^ self.now.inputs }
        ensures { IsTrue result ↔ (coefficient self.now.inputs self.now.outputs self.now.entries output monomial ≡ 1) }
    {
        (self.words[monomial as usize] >> (self.outputs - 1 - output)) & 1 == 1
    }
}

/// The normal form of a table, which has an entry for each index of its inputs.
pub fn anf(
    alloc: Global,
    inputs: u32,
    outputs: u32,
    entries: &[u64],
) -> Result<NormalForm, AllocError>
    requires few_inputs { inputs ≤ 8 }
    requires few_outputs { outputs ≤ 64 }
    requires all { length entries.now ≡ 2 ^ inputs }
    ensures { IfOk result (λ f. f ≡ record { inputs = inputs; outputs = outputs; entries = entries.now }) }
{
    let mut words = Vec::from_slice(alloc, entries)?;
    for bit in 0..inputs {
        pass(&mut words, bit);
    }
    Ok(NormalForm {
        inputs,
        outputs,
        words,
    })
}

// Adds to each word whose index has the bit the word at the index without it.
fn pass(words: &mut [u64], bit: u32)
    requires { bit < 8 }
    ensures { EachIndex words.old (λ index. slice_index words.new index ≡ with_pass bit (slice_index words.old) index) }
{
    let step = 1usize << bit;
    for index in 0..words.len() {
        if (index >> bit) & 1 == 1 {
            words[index] ^= words[index - step];
        }
    }
}
