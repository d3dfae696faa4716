ghost use Rattle.std.specs.Prelude.{◌≡◌, [], ◌∷◌, ◌++◌, not, flat_map, IfOk};
ghost use Rattle.usuba_model.specs.Faults.{first_of};
ghost use Rattle.usuba_model.specs.Names.{unknown, unknown_in_index, unknown_in_pick, unknown_in_spot};
ghost use Rattle.usuba_model.specs.Names.{unknown_in_expression, unknown_in_equation, unknown_in_item};
ghost use Rattle.usuba_model.specs.Names.{unknown_in_definition, unknown_names};
ghost use Rattle.usuba_phases.specs.State.Names.{names_in, unknown_among, unknown_outermost, unknown_in_move};
ghost use Rattle.usuba_phases.specs.State.Scopes.{counters_of};

use crate::definitions::name_of;
use crate::names::{Names, add, is_among};
use crate::repeated::note_declared;
use crate::scope::{Scope, is_counter};
use std::alloc::{AllocError, Global};
use std::collections::HashSet;
use usuba_model::{Fault, FaultKind};
use usuba_trees::{Def, Equation, Expr, File, Index, Item, Pick, ShiftLink, Spot, Word};

fn fault_unless(is_known: bool, name: &Word) -> Option<Fault>
    ensures { result ≡ first_of FaultKind.UnknownName (record { place = name.now.place; holds = not is_known } ∷ []) }
{
    if is_known {
        None
    } else {
        Some(Fault {
            kind: FaultKind::UnknownName,
            place: name.place,
        })
    }
}

fn check_name(name: &Word, known: &Names<'_>) -> Option<Fault>
    ensures { result ≡ first_of FaultKind.UnknownName (unknown (names_in known.now) name.now ∷ []) }
{
    fault_unless(is_among(known, name.text.as_str()), name)
}

fn check_counter(name: &Word, scope: &Scope<'_>) -> Option<Fault>
    ensures { result ≡ first_of FaultKind.UnknownName (unknown (counters_of scope.now) name.now ∷ []) }
{
    fault_unless(is_counter(scope, name.text.as_str()), name)
}

fn check_index(index: &Index, scope: &Scope<'_>) -> Option<Fault>
    ensures { result ≡ first_of FaultKind.UnknownName (unknown_in_index index.now (counters_of scope.now)) }
{
    match index {
        Index::Number(_) => None,
        Index::Counter(name) => check_counter(name, scope),
        Index::Chain { first, rest } => {
            let mut fault = check_index(first.get(), scope);
            for link in rest.as_slice() {
                fault = fault.or(check_index(&link.operand, scope));
            }
            fault
        }
    }
}

fn check_pick(pick: &Pick, scope: &Scope<'_>) -> Option<Fault>
    ensures { result ≡ first_of FaultKind.UnknownName (unknown_in_pick (counters_of scope.now) pick.now) }
{
    match pick {
        Pick::One(index) => check_index(index, scope),
        Pick::Range(first, last) => check_index(first, scope).or(check_index(last, scope)),
    }
}

fn check_spot(spot: &Spot, declared: &Names<'_>, scope: &Scope<'_>) -> Option<Fault>
    ensures { result ≡ first_of FaultKind.UnknownName
        (unknown_in_spot (names_in declared.now) (counters_of scope.now) spot.now) }
{
    let mut fault = check_name(&spot.name, declared);
    for pick in spot.picks.as_slice() {
        fault = fault.or(check_pick(pick, scope));
    }
    fault
}

fn check_moves(moves: &[ShiftLink], scope: &Scope<'_>) -> Option<Fault>
    ensures { result ≡ first_of FaultKind.UnknownName (flat_map (unknown_in_move (counters_of scope.now)) moves.now) }
{
    let mut fault = None;
    for shift in moves {
        fault = fault.or(check_index(&shift.amount, scope));
    }
    fault
}

fn check_expression(
    expression: &Expr,
    defined: &Names<'_>,
    declared: &Names<'_>,
    scope: &Scope<'_>,
) -> Option<Fault>
    ensures { result ≡ first_of FaultKind.UnknownName
        (unknown_in_expression (names_in defined.now) (names_in declared.now) expression.now (counters_of scope.now)) }
{
    match expression {
        Expr::Number { .. } => None,
        Expr::Spot(spot) => check_spot(spot, declared, scope),
        Expr::Tuple(parts) => {
            let mut fault = None;
            for part in parts.as_slice() {
                fault = fault.or(check_expression(part, defined, declared, scope));
            }
            fault
        }
        Expr::Call { name, args } => {
            let mut fault = check_name(name, defined);
            for argument in args.as_slice() {
                fault = fault.or(check_expression(argument, defined, declared, scope));
            }
            fault
        }
        Expr::Not { inner, .. } => check_expression(inner.get(), defined, declared, scope),
        Expr::Chain { first, rest, .. } => {
            let mut fault = check_expression(first.get(), defined, declared, scope);
            for link in rest.as_slice() {
                fault = fault.or(check_expression(&link.operand, defined, declared, scope));
            }
            fault
        }
        Expr::Shift { first, moves } => {
            check_expression(first.get(), defined, declared, scope).or(check_moves(
                moves.as_slice(),
                scope,
            ))
        }
        Expr::Refresh { inner, number, .. } => {
            check_expression(inner.get(), defined, declared, scope).or(check_index(number, scope))
        }
    }
}

fn check_equation(
    equation: &Equation,
    defined: &Names<'_>,
    declared: &Names<'_>,
    scope: &Scope<'_>,
) -> Option<Fault>
    ensures { result ≡ first_of FaultKind.UnknownName
        (unknown_in_equation (names_in defined.now) (names_in declared.now) equation.now (counters_of scope.now)) }
{
    let mut fault = None;
    for spot in equation.left.as_slice() {
        fault = fault.or(check_spot(spot, declared, scope));
    }
    fault.or(check_expression(&equation.right, defined, declared, scope))
}

fn check_bounds(low: &Index, high: &Index, scope: &Scope<'_>) -> Option<Fault>
    ensures { result ≡ first_of FaultKind.UnknownName
        (unknown_in_index low.now (counters_of scope.now) ++ unknown_in_index high.now (counters_of scope.now)) }
{
    check_index(low, scope).or(check_index(high, scope))
}

fn check_item(
    item: &Item,
    defined: &Names<'_>,
    declared: &Names<'_>,
    scope: &Scope<'_>,
) -> Option<Fault>
    ensures { result ≡ first_of FaultKind.UnknownName
        (unknown_in_item (names_in defined.now) (names_in declared.now) item.now (counters_of scope.now)) }
{
    match item {
        Item::Equation(equation) => check_equation(equation, defined, declared, scope),
        Item::Loop(repeat) => {
            let mut fault = check_bounds(&repeat.low, &repeat.high, scope);
            let inside = Scope::Inside {
                counter: repeat.counter.text.as_str(),
                around: &*scope,
            };
            for inner in repeat.items.as_slice() {
                fault = fault.or(check_item(inner, defined, declared, &inside));
            }
            fault
        }
    }
}

fn check_items(items: &[Item], defined: &Names<'_>, declared: &Names<'_>) -> Option<Fault>
    ensures { result ≡ first_of FaultKind.UnknownName
        (flat_map (unknown_outermost (names_in defined.now) (names_in declared.now)) items.now) }
{
    let mut fault = None;
    for item in items {
        fault = fault.or(check_item(item, defined, declared, &Scope::Outermost));
    }
    fault
}

fn check_body(definition: &Def, defined: &Names<'_>, declared: &Names<'_>) -> Option<Fault>
    ensures { result ≡ first_of FaultKind.UnknownName
        (unknown_among (names_in defined.now) (names_in declared.now) definition.now) }
{
    match definition {
        Def::Node(node) => check_items(node.items.as_slice(), defined, declared),
        Def::Table(_) => None,
        Def::Perm(_) => None,
    }
}

fn check_definition(
    alloc: Global,
    defined: &Names<'_>,
    definition: &Def,
) -> Result<Option<Fault>, AllocError>
    ensures { IfOk result (λ found.
        found ≡ first_of FaultKind.UnknownName (unknown_in_definition (names_in defined.now) definition.now)) }
{
    let mut declared = HashSet::new(alloc);
    let _repeated = note_declared(&mut declared, definition)?;
    Ok(check_body(definition, defined, &declared))
}

/// The first name of a file that is unknown where it stands: a variable that is not declared, a callee that is not
/// defined before, or a counter of no loop around.
pub fn unknown_name(alloc: Global, file: &File) -> Result<Option<Fault>, AllocError>
    ensures { IfOk result (λ found. found ≡ first_of FaultKind.UnknownName (unknown_names [] file.now.defs)) }
{
    let mut defined = HashSet::new(alloc);
    for definition in file.defs.as_slice() {
        let found = check_definition(alloc, &defined, definition)?;
        if found.is_some() {
            return Ok(found);
        }
        let _is_new = add(&mut defined, name_of(definition).text.as_str())?;
    }
    Ok(None)
}
