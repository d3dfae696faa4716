ghost use Rattle.std.specs.Prelude.{◌≡◌, ◌-◌, ◌<◌, ◌^◌, nat_lt, if◌then◌else◌, codes};
ghost use Rattle.source_gen.specs.Source.{picked};
ghost use Rattle.word_draws.specs.Draws.{next};

use word_draws::Draws;

/// How many elements the input has.
pub(crate) const INPUTS: u64 = 8;

/// The operands of a line by their numbers: the elements of the input, and then those of the output.
#[derive(Debug, Clone, Copy, Drop)]
pub struct Operands {
    pub first: u64,
    pub second: u64,
    pub third: u64,
}

/// Draws the operands of the line with this number.
pub(crate) fn draw_operands(draws: &mut Draws, line: u64) -> Operands
    requires { line < 2 ^ 32 }
    ensures picked { result ≡ picked line draws.old }
    ensures state { draws.new ≡ next (next (next draws.old)) }
{
    let there = INPUTS + line;
    let first = u64::from(draws.draw()) % there;
    let second = u64::from(draws.draw()) % there;
    let third = u64::from(draws.draw()) % there;
    Operands {
        first,
        second,
        third,
    }
}

/// The variable of the operand with a number.
pub(crate) fn variable_of(operand: u64) -> &'static str
    ensures { result.now ≡ (if nat_lt operand 8 then codes "x[" else codes "z[") }
{
    if operand < INPUTS { "x[" } else { "z[" }
}

/// Which of the elements of its variable an operand is.
pub(crate) fn element_of(operand: u64) -> u64
    ensures { result ≡ (if nat_lt operand 8 then operand else operand - 8) }
{
    if operand < INPUTS {
        operand
    } else {
        operand - INPUTS
    }
}
