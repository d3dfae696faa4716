//! Expressions.
ghost use Rattle.std.specs.Prelude.{◌≡◌, ℕ};
ghost use Rattle.c_machine.specs.Machine as machine;
ghost use Rattle.c_machine.specs.State.Scopes.{scope_of};
ghost use Rattle.c_machine.specs.State.Answers.{IsReading};

use crate::memory::word_at;
use crate::scope::{Named, index_value, row_of, word_of};
use crate::stop::Trap;
use c_tree::{CExpr, COp};
use tor_edge::List;

/// The random words that are left.
#[derive(Drop)]
pub struct Stream<'a> {
    pub words: &'a [u64],
}

impl Stream<'_> {
    // The next random word.
    fn draw(&mut self) -> Result<u64, Trap>
        ensures { IsReading (machine.drawn self.old.words.now) result self.new.words.now }
    {
        let Some((word, rest)) = self.words.split_first() else {
            return Err(Trap::WordsShort);
        };
        self.words = rest;
        Ok(*word)
    }
}

// The word of an operator.
fn operated(op: COp, left: u64, right: u64) -> Option<u64>
    ensures { result ≡ machine.operated op left right }
{
    match op {
        COp::Xor => Some(left ^ right),
        COp::And => Some(left & right),
        COp::Or => Some(left | right),
        COp::Shl if right < 64 => Some(left << right),
        COp::Shr if right < 64 => Some(left >> right),
        COp::Shl | COp::Shr => None,
        COp::Sub => Some(left.wrapping_sub(right)),
    }
}

/// Computes an expression for the names in scope and the words of memory; it draws its random words from left to right.
pub fn evaluate(
    expression: &CExpr,
    names: &[Named<'_>],
    rows: &[List<u64>],
    stream: &mut Stream<'_>,
) -> Result<u64, Trap>
    ensures { IsReading (machine.evaluated expression.now (scope_of names.now) rows.now stream.old.words.now)
        result stream.new.words.now }
{
    match expression {
        CExpr::Cell { array, index } => {
            word_at(rows, row_of(names, array), index_value(names, index)).ok_or(Trap::IndexOut)
        }
        CExpr::Word(name) => Ok(word_of(names, name)),
        CExpr::Number(number) => Ok(*number),
        CExpr::Random => stream.draw(),
        CExpr::Two { op, left, right } => {
            let left = evaluate(left.get(), names, rows, stream)?;
            let right = evaluate(right.get(), names, rows, stream)?;
            operated(*op, left, right).ok_or(Trap::BadShift)
        }
    }
}
