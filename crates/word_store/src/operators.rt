ghost use Rattle.std.specs.Prelude.{◌≡◌};
ghost use Rattle.usuba_model.specs.Meaning.{word_operation};

use crate::look_up::look_up_words;
use crate::shifts::shift_word;
use crate::words::Words;
use std::alloc::{AllocError, Global};
use usuba_plan::Elements;
use usuba_trees::{BitOp, ShiftKind};
use usuba0::{all_ones, constant_word};

fn combine_words(op: BitOp, a: u64, b: u64) -> u64
    ensures { result ≡ word_operation op a b }
{
    match op {
        BitOp::And => a & b,
        BitOp::Xor => a ^ b,
        BitOp::Or => a | b,
    }
}

impl Elements for Words {
    ghost use Rattle.std.specs.Prelude.{ℕ};
    ghost use Rattle.word_store.specs.WordStore.{word_store};

    type Handle = u64;

    ghost V = { ℕ };

    ghost store = { λ words. word_store words };

    fn number(&mut self, value: u64) -> Result<u64, AllocError> {
        Ok(constant_word(self.width(), self.bits(), value))
    }

    fn complement(&mut self, a: u64) -> Result<u64, AllocError> {
        Ok(a ^ all_ones(self.bits()))
    }

    fn combine(&mut self, op: BitOp, a: u64, b: u64) -> Result<u64, AllocError> {
        Ok(combine_words(op, a, b))
    }

    fn shift(&mut self, kind: ShiftKind, amount: u32, a: u64) -> Result<u64, AllocError> {
        Ok(shift_word(self.bits(), kind, amount, a))
    }

    fn refresh(&mut self, _number: u32, a: u64) -> Result<u64, AllocError> {
        Ok(a)
    }

    fn look_up(
        &mut self,
        alloc: Global,
        outputs: u32,
        entries: &[u64],
        inputs: &[u64],
    ) -> Result<Vec<u64>, AllocError> {
        look_up_words(alloc, self.bits(), outputs, entries, inputs)
    }
}
