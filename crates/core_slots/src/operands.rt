ghost use Rattle.std.specs.Prelude.{◌≡◌, [], ◌∷◌, ◌++◌};
ghost use Rattle.c_form.specs.Slots as form;
ghost use Rattle.core_slots.specs.State.Ends.{numbers};

use usuba0::{Gate, Reg};

/// The registers that an equation reads.
#[derive(Clone, Copy)]
pub struct Operands {
    pub first: Option<Reg>,
    pub second: Option<Reg>,
}

impl Operands {
    fn none() -> Operands
        ensures { numbers result.first ++ numbers result.second ≡ [] }
    {
        Operands {
            first: None,
            second: None,
        }
    }

    fn one(register: Reg) -> Operands
        ensures { numbers result.first ++ numbers result.second ≡ register.0 ∷ [] }
    {
        Operands {
            first: Some(register),
            second: None,
        }
    }

    fn two(first: Reg, second: Reg) -> Operands
        ensures { numbers result.first ++ numbers result.second ≡ first.0 ∷ second.0 ∷ [] }
    {
        Operands {
            first: Some(first),
            second: Some(second),
        }
    }

    pub fn of(gate: &Gate) -> Operands
        ensures { numbers result.first ++ numbers result.second ≡ form.operands gate.now }
    {
        match *gate {
            Gate::Const(_) => Operands::none(),
            Gate::Xor(a, b) | Gate::And(a, b) => Operands::two(a, b),
            Gate::Not(a)
            | Gate::Mask(_, a)
            | Gate::Shl(_, a)
            | Gate::Shr(_, a)
            | Gate::Rotl(_, a)
            | Gate::Refresh(a) => Operands::one(a),
        }
    }
}
