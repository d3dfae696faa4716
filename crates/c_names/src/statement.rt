//! The names of statements.
ghost use Rattle.std.specs.Prelude.{◌≡◌, ◌++◌, ◌∷◌, [], OnOk, map, take, length};
ghost use Rattle.c_names.specs.Names as spec;
ghost use Rattle.c_names.specs.Scope as scopes;
ghost use Rattle.c_names.specs.State.Answers.{IsPassed, passed};
ghost use Rattle.c_names.specs.declared.scope.Role.TheVariants as role;

use crate::expression::{check_expression, check_index, check_low};
use crate::fault::NameFault;
use crate::places::Places;
use crate::scope::{Role, Scope};
use c_tree::{CExpr, CIndex, CLow, CStmt};
use tor_edge::Name;

// An assignment: an array, an index and a value.
fn check_assignment(
    array: &Name,
    index: &CIndex,
    value: &CExpr,
    scope: &Scope<'_>,
    places: &mut Places<'_>,
) -> Result<(), NameFault>
    ensures { IsPassed (passed ((scopes.is_array (scopes.role_of scope.now array.now) ∷ [])
        ++ (spec.index_names scope.now index.now ++ spec.expression_names value.now scope.now)) places.old.left.now)
        result places.new.left.now }
{
    places.pass(scope.is_array(array))?;
    check_index(index, scope, places)?;
    check_expression(value, scope, places)
}

// A declaration of a word.
fn check_declaration<'a>(
    name: &'a Name,
    value: &CExpr,
    scope: &mut Scope<'a>,
    places: &mut Places<'_>,
) -> Result<(), NameFault>
    ensures names { IsPassed (passed ((scopes.is_new (scopes.role_of scope.old name.now) ∷ [])
        ++ spec.expression_names value.now scope.old) places.old.left.now) result places.new.left.now }
    ensures scope { OnOk result (scope.new ≡ spec.with_name scope.old name.now role.Word) }
{
    places.pass(scope.is_new(name))?;
    check_expression(value, scope, places)?;
    scope.add(name, Role::Word)?;
    Ok(())
}

// The head of a loop, which names the counter three times.
fn check_head(
    counter: &Name,
    low: &CLow,
    scope: &Scope<'_>,
    places: &mut Places<'_>,
) -> Result<(), NameFault>
    ensures { IsPassed (passed (spec.head_names scope.now counter.now low.now) places.old.left.now) result
        places.new.left.now }
{
    places.pass(scope.is_new(counter))?;
    check_low(low, scope, places)?;
    places.pass(true)?;
    places.pass(true)
}

/// Statements in turn.
#[cycle(statements)]
pub(crate) fn check_all<'a>(
    statements: &'a [CStmt],
    scope: &mut Scope<'a>,
    places: &mut Places<'_>,
) -> Result<(), NameFault>
    ensures names { IsPassed (passed (spec.all_checked (map spec.checked statements.now) scope.old).names
        places.old.left.now) result places.new.left.now }
    ensures scope { OnOk result (scope.new ≡ (spec.all_checked (map spec.checked statements.now) scope.old).scope) }
{
    for statement in statements {
        check_statement(statement, scope, places)?;
    }
    Ok(())
}

#[cycle(statements)]
fn check_statement<'a>(
    statement: &'a CStmt,
    scope: &mut Scope<'a>,
    places: &mut Places<'_>,
) -> Result<(), NameFault>
    ensures names { IsPassed (passed (spec.checked statement.now scope.old).names places.old.left.now) result
        places.new.left.now }
    ensures scope { OnOk result (scope.new ≡ (spec.checked statement.now scope.old).scope) }
{
    match statement {
        CStmt::Assign {
            array,
            index,
            value,
        } => check_assignment(array, index, value, scope, places),
        CStmt::Let { name, value } => check_declaration(name, value, scope, places),
        CStmt::For { counter, low, body } => {
            check_head(counter, low, scope, places)?;
            check_body(counter, body.as_slice(), scope, places)
        }
    }
}

// What stands between the braces of a loop.
#[cycle(statements)]
fn check_body<'a>(
    counter: &'a Name,
    body: &'a [CStmt],
    scope: &mut Scope<'a>,
    places: &mut Places<'_>,
) -> Result<(), NameFault>
    ensures names { IsPassed (passed (spec.all_checked (map spec.checked body.now)
        (spec.with_name scope.old counter.now role.Counter)).names places.old.left.now) result
        places.new.left.now }
    ensures scope { OnOk result (scope.new ≡ take (length scope.old)
        (spec.all_checked (map spec.checked body.now) (spec.with_name scope.old counter.now role.Counter)).scope) }
{
    let before = scope.len();
    scope.add(counter, Role::Counter)?;
    check_all(body, scope, places)?;
    scope.truncate(before);
    Ok(())
}
