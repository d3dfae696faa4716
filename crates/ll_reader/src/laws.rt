ghost use Rattle.std.specs.Prelude.{◌≡◌, ℕ, List, [], ◌∷◌, ◌++◌, length};
ghost use Rattle.ll_reader.specs.declared.grammar.Step.{Step};
ghost use Rattle.ll_reader.specs.Answer.{HasAnswer};
ghost use Rattle.ll_reader.specs.Derivation.{IsText, steps_to};
ghost use Rattle.ll_reader.specs.Predictive.{IsPredictive};

use crate::grammar::{Frame, Production};

/// A law: classes that begin two texts have the same steps in both, and a text has one derivation.
///
/// It does nothing, and is called for its contract.
pub fn steps_are_determined(_table: &[Production], _frame: Frame)
    requires { IsPredictive _table.now _frame }
    ensures begun { (front rest others : List ℕ) (steps also : List Step) → IsText _table.now _frame (front ++ rest) steps → IsText _table.now _frame (front ++ others) also → steps_to (length front) steps ≡ steps_to (length front) also }
    ensures whole { (classes : List ℕ) (steps also : List Step) → IsText _table.now _frame classes steps → IsText _table.now _frame classes also → steps ≡ also }
{}

/// A law: classes that end with the end class are a text that is nowhere too deep, or have a fault.
///
/// So the reader has an answer for all of them, apart from the want of memory.
pub fn text_or_fault(_table: &[Production], _frame: Frame)
    requires { IsPredictive _table.now _frame }
    ensures { (classes front : List ℕ) → classes ≡ front ++ _frame.end ∷ [] → HasAnswer _table.now _frame classes }
{}
