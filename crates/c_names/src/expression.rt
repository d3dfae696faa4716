//! The names of expressions.
ghost use Rattle.c_names.specs.Names as spec;
ghost use Rattle.c_names.specs.State.Answers.{IsPassed, passed};

use crate::fault::NameFault;
use crate::places::Places;
use crate::scope::Scope;
use c_tree::{CExpr, CIndex, CLow};

pub(crate) fn check_index(
    index: &CIndex,
    scope: &Scope<'_>,
    places: &mut Places<'_>,
) -> Result<(), NameFault>
    ensures { IsPassed (passed (spec.index_names scope.now index.now) places.old.left.now) result
        places.new.left.now }
{
    match index {
        CIndex::Number(_) => Ok(()),
        CIndex::Counter(name) => places.pass(scope.is_counter(name)),
    }
}

pub(crate) fn check_low(
    low: &CLow,
    scope: &Scope<'_>,
    places: &mut Places<'_>,
) -> Result<(), NameFault>
    ensures { IsPassed (passed (spec.low_names scope.now low.now) places.old.left.now) result
        places.new.left.now }
{
    match low {
        CLow::Number(_) => Ok(()),
        CLow::After(name) => places.pass(scope.is_counter(name)),
    }
}

pub(crate) fn check_expression(
    expression: &CExpr,
    scope: &Scope<'_>,
    places: &mut Places<'_>,
) -> Result<(), NameFault>
    ensures { IsPassed (passed (spec.expression_names expression.now scope.now) places.old.left.now) result
        places.new.left.now }
{
    match expression {
        CExpr::Cell { array, index } => {
            places.pass(scope.is_array(array))?;
            check_index(index, scope, places)
        }
        CExpr::Word(name) => places.pass(scope.is_word(name)),
        CExpr::Number(_) | CExpr::Random => Ok(()),
        CExpr::Two { left, right, .. } => {
            check_expression(left.get(), scope, places)?;
            check_expression(right.get(), scope, places)
        }
    }
}
