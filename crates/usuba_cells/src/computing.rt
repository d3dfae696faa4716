ghost use Rattle.std.specs.Prelude.{◌≡◌, ◌≢◌, ◌⊎◌, ◌<◌, ◌^◌, IsFalse, pos, Some, true, nat_abs};
ghost use Rattle.std.specs.Bool.{OnTrue};
ghost use Rattle.usuba_model.specs.Indexes as model;
ghost use Rattle.usuba_cells.specs.Counters.{around, computed_of};
ghost use Rattle.usuba_cells.specs.State.Sums.{number_made, divides as is_division};

use usuba_trees::{Index, IndexOp};

/// A counter of the loops around a place, with its value there.
#[derive(Clone, Copy, Drop)]
pub struct Counter<'a> {
    pub name: &'a str,
    pub value: i64,
}

/// What computing an index comes to.
#[derive(Clone, Copy, Drop)]
pub struct Computed {
    /// The value, if it has one. Its absolute value is below 2^63.
    pub value: Option<i64>,
    /// Whether something was divided by zero on the way.
    pub divided_by_zero: bool,
    /// Whether a number of 2^63 or more in absolute value was met.
    pub too_big: bool,
}

fn no_value() -> Computed
    ensures { computed_of result ≡ model.no_value }
{
    Computed {
        value: None,
        divided_by_zero: false,
        too_big: false,
    }
}

// A number is met: one of 2^63 or more in absolute value is no value.
fn met(number: i128) -> Computed
    ensures { computed_of result ≡ model.met number }
{
    if number.unsigned_abs() < 1 << 63 {
        Computed {
            value: Some(number as i64),
            divided_by_zero: false,
            too_big: false,
        }
    } else {
        Computed {
            value: None,
            divided_by_zero: false,
            too_big: true,
        }
    }
}

// The value of a counter, that of the innermost loop where several have its name.
fn counter_value(counters: &[Counter<'_>], name: &str) -> Option<i64>
    ensures { result ≡ model.counter_value (around counters.now) name.now }
{
    let mut value = None;
    for counter in counters {
        if counter.name == name {
            value = Some(counter.value);
        }
    }
    value
}

fn met_counter(value: Option<i64>) -> Computed
    ensures { computed_of result ≡ model.met_counter value }
{
    match value {
        Some(value) => met(i128::from(value)),
        None => no_value(),
    }
}

// Whether an operator divides.
fn divides(op: IndexOp) -> bool
    ensures { result ≡ is_division op }
{
    match op {
        IndexOp::Add | IndexOp::Sub | IndexOp::Mul => false,
        IndexOp::Div | IndexOp::Rem => true,
    }
}

// The number that an operator makes of two.
fn number_of(op: IndexOp, left: i64, right: i64) -> i128
    requires { is_division op ≡ true → right ≢ pos 0 }
    ensures { result ≡ number_made op left right }
{
    let left = i128::from(left);
    let right = i128::from(right);
    match op {
        IndexOp::Add => left + right,
        IndexOp::Sub => left - right,
        IndexOp::Mul => left * right,
        IndexOp::Div => left / right,
        IndexOp::Rem => left % right,
    }
}

// What an operator makes of the values of its operands.
fn operated(op: IndexOp, left: Option<i64>, right: Option<i64>) -> Computed
    ensures { computed_of result ≡ model.operated op left right }
{
    let Some(divisor) = right else {
        return no_value();
    };
    if divides(op) && divisor == 0 {
        return Computed {
            value: None,
            divided_by_zero: true,
            too_big: false,
        };
    }
    match left {
        Some(left) => met(number_of(op, left, divisor)),
        None => no_value(),
    }
}

// An operator on two computed operands.
fn applied(op: IndexOp, left: Computed, right: Computed) -> Computed
    ensures { computed_of result ≡ model.applied op (computed_of left) (computed_of right) }
{
    let made = operated(op, left.value, right.value);
    Computed {
        value: made.value,
        divided_by_zero: left.divided_by_zero || right.divided_by_zero || made.divided_by_zero,
        too_big: left.too_big || right.too_big || made.too_big,
    }
}

/// Computes an index where the counters of the loops around have these values, the innermost last.
///
/// Operators of one level apply from left to right. A division rounds toward zero, and the remainder has the dividend's sign.
/// What is computed from something without a value has none; the rest of the index is computed all the same.
pub fn compute(index: &Index, counters: &[Counter<'_>]) -> Computed
    ensures { computed_of result ≡ model.computed index.now (around counters.now) }
{
    match index {
        Index::Number(number) => met(i128::from(*number)),
        Index::Counter(name) => met_counter(counter_value(counters, name.text.as_str())),
        Index::Chain { first, rest } => {
            let mut so_far = compute(first.get(), counters);
            for link in rest.as_slice() {
                let operand = compute(&link.operand, counters);
                so_far = applied(link.op, so_far, operand);
            }
            so_far
        }
    }
}
