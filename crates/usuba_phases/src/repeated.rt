ghost use Rattle.std.specs.Prelude.{◌≡◌, [], ◌∷◌, ◌++◌, flat_map, IfOk, OnOk};
ghost use Rattle.usuba_model.specs.Faults.{first_of};
ghost use Rattle.usuba_model.specs.Names.{is_name_among, name_of as name_of_definition, names_of, declared_in};
ghost use Rattle.usuba_model.specs.Names.{repeated, repeated_declarations, repeated_counters, counters_in};
ghost use Rattle.usuba_model.specs.Names.{repeated_names};
ghost use Rattle.usuba_phases.specs.State.Names.{names_in, AreSame, counters_among, counters_outermost};
ghost use Rattle.usuba_phases.specs.State.Scopes.{counters_of};

use crate::definitions::{declared_in as declarations_of, name_of};
use crate::names::{Names, add, is_among};
use crate::scope::{Scope, is_counter};
use std::alloc::{AllocError, Global};
use std::collections::HashSet;
use usuba_model::{Fault, FaultKind};
use usuba_trees::{Decl, Def, File, Item, Word};

fn fault_if(is_repeated: bool, name: &Word) -> Option<Fault>
    ensures { result ≡ first_of FaultKind.DuplicateName (record { place = name.now.place; holds = is_repeated } ∷ []) }
{
    if is_repeated {
        Some(Fault {
            kind: FaultKind::DuplicateName,
            place: name.place,
        })
    } else {
        None
    }
}

// Notes a name, which is at fault where it was noted before.
fn note<'a>(names: &mut Names<'a>, name: &'a Word) -> Result<Option<Fault>, AllocError>
    ensures found { IfOk result (λ found.
        found ≡ first_of FaultKind.DuplicateName (repeated (names_in names.old) name.now ∷ [])) }
    ensures noted { OnOk result (AreSame (names_in names.new) (name.now.text ∷ names_in names.old)) }
{
    let is_new = add(names, name.text.as_str())?;
    Ok(fault_if(!is_new, name))
}

// Notes declared names, and answers the first that was noted before.
pub fn note_all<'a>(
    names: &mut Names<'a>,
    declarations: &'a [Decl],
) -> Result<Option<Fault>, AllocError>
    ensures found { IfOk result (λ found.
        found ≡ first_of FaultKind.DuplicateName (repeated_declarations (names_in names.old) declarations.now)) }
    ensures noted { OnOk result (AreSame (names_in names.new) (names_of declarations.now ++ names_in names.old)) }
{
    let mut fault = None;
    for declaration in declarations {
        fault = fault.or(note(names, &declaration.name)?);
    }
    Ok(fault)
}

/// Notes what a definition declares, and answers the first name that was noted before.
pub fn note_declared<'a>(
    names: &mut Names<'a>,
    definition: &'a Def,
) -> Result<Option<Fault>, AllocError>
    ensures found { IfOk result (λ found.
        found ≡ first_of FaultKind.DuplicateName
        (repeated_declarations (names_in names.old) (declared_in definition.now))) }
    ensures noted { OnOk result
        (AreSame (names_in names.new) (names_of (declared_in definition.now) ++ names_in names.old)) }
{
    let declared = declarations_of(definition);
    let inputs = note_all(names, declared.inputs)?;
    let outputs = note_all(names, declared.outputs)?;
    let locals = note_all(names, declared.locals)?;
    Ok(inputs.or(outputs).or(locals))
}

fn is_taken(name: &str, declared: &Names<'_>, scope: &Scope<'_>) -> bool
    ensures { result ≡ is_name_among (names_in declared.now ++ counters_of scope.now) name.now }
{
    is_among(declared, name) || is_counter(scope, name)
}

fn check_counter(name: &Word, declared: &Names<'_>, scope: &Scope<'_>) -> Option<Fault>
    ensures { result ≡ first_of FaultKind.DuplicateName
        (repeated (names_in declared.now ++ counters_of scope.now) name.now ∷ []) }
{
    fault_if(is_taken(name.text.as_str(), declared, scope), name)
}

// The first counter in an item that is declared or is the counter of a loop around it.
fn repeated_counter(item: &Item, declared: &Names<'_>, scope: &Scope<'_>) -> Option<Fault>
    ensures { result ≡ first_of FaultKind.DuplicateName
        (repeated_counters (names_in declared.now) item.now (counters_of scope.now)) }
{
    match item {
        Item::Equation(_) => None,
        Item::Loop(repeat) => {
            let mut fault = check_counter(&repeat.counter, declared, scope);
            let inside = Scope::Inside {
                counter: repeat.counter.text.as_str(),
                around: &*scope,
            };
            for inner in repeat.items.as_slice() {
                fault = fault.or(repeated_counter(inner, declared, &inside));
            }
            fault
        }
    }
}

fn repeated_counter_in(items: &[Item], declared: &Names<'_>) -> Option<Fault>
    ensures { result ≡ first_of FaultKind.DuplicateName
        (flat_map (counters_outermost (names_in declared.now)) items.now) }
{
    let mut fault = None;
    for item in items {
        fault = fault.or(repeated_counter(item, declared, &Scope::Outermost));
    }
    fault
}

fn counter_fault(definition: &Def, declared: &Names<'_>) -> Option<Fault>
    ensures { result ≡ first_of FaultKind.DuplicateName (counters_among (names_in declared.now) definition.now) }
{
    match definition {
        Def::Node(node) => repeated_counter_in(node.items.as_slice(), declared),
        Def::Table(_) => None,
        Def::Perm(_) => None,
    }
}

fn repeated_in_definition<'a>(
    alloc: Global,
    names: &mut Names<'a>,
    definition: &'a Def,
) -> Result<Option<Fault>, AllocError>
    ensures found { IfOk result (λ found.
        found ≡ first_of FaultKind.DuplicateName
        (repeated (names_in names.old) (name_of_definition definition.now)
        ∷ repeated_declarations [] (declared_in definition.now) ++ counters_in definition.now)) }
    ensures noted { OnOk result
        (AreSame (names_in names.new) ((name_of_definition definition.now).text ∷ names_in names.old)) }
{
    let own = note(names, name_of(definition))?;
    let mut declared = HashSet::new(alloc);
    let declarations = note_declared(&mut declared, definition)?;
    let counters = counter_fault(definition, &declared);
    Ok(own.or(declarations).or(counters))
}

/// The first name of a file that repeats another: a definition's, a declaration's or a counter's.
pub fn repeated_name(alloc: Global, file: &File) -> Result<Option<Fault>, AllocError>
    ensures { IfOk result (λ found. found ≡ first_of FaultKind.DuplicateName (repeated_names [] file.now.defs)) }
{
    let mut names = HashSet::new(alloc);
    for definition in file.defs.as_slice() {
        let found = repeated_in_definition(alloc, &mut names, definition)?;
        if found.is_some() {
            return Ok(found);
        }
    }
    Ok(None)
}
