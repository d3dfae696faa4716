ghost use Rattle.std.specs.Prelude.{◌≡◌};
ghost use Rattle.source_terms.specs.SourceTerms.{turn_of};

use crate::terms::Terms;
use std::alloc::{AllocError, Global};
use table_anf::{anf, emit};
use usuba_plan::Elements;
use usuba_trees::{BitOp, ShiftKind};
use usuba0::{Reg, Turn};

fn turn(kind: ShiftKind) -> Turn
    ensures { result ≡ turn_of kind }
{
    match kind {
        ShiftKind::Left => Turn::Left,
        ShiftKind::Right => Turn::Right,
        ShiftKind::RotLeft => Turn::RotLeft,
        ShiftKind::RotRight => Turn::RotRight,
    }
}

impl Elements for Terms {
    ghost use Rattle.usuba0.specs.Term.{Term};
    ghost use Rattle.term_store.specs.TermStore.{term_store};

    type Handle = Reg;

    ghost V = { Term };

    ghost store = { λ terms. term_store terms.builder };

    fn number(&mut self, value: u64) -> Result<Reg, AllocError> {
        self.builder.constant(value)
    }

    fn complement(&mut self, a: Reg) -> Result<Reg, AllocError> {
        self.builder.not(a)
    }

    fn combine(&mut self, op: BitOp, a: Reg, b: Reg) -> Result<Reg, AllocError> {
        match op {
            BitOp::And => self.builder.and(a, b),
            BitOp::Xor => self.builder.xor(a, b),
            BitOp::Or => self.builder.or(a, b),
        }
    }

    fn shift(&mut self, kind: ShiftKind, amount: u32, a: Reg) -> Result<Reg, AllocError> {
        self.builder.shift(turn(kind), amount, a)
    }

    fn refresh(&mut self, number: u32, a: Reg) -> Result<Reg, AllocError> {
        self.builder.refresh(number, a)
    }

    fn look_up(
        &mut self,
        alloc: Global,
        outputs: u32,
        entries: &[u64],
        inputs: &[Reg],
    ) -> Result<Vec<Reg>, AllocError> {
        let normal_form = anf(alloc, inputs.len() as u32, outputs, entries)?;
        let made = emit(alloc, &normal_form, inputs, &mut self.builder)?;
        Vec::from_slice(alloc, made.as_slice())
    }
}
