ghost use Rattle.std.specs.Prelude.{◌≡◌, [], ◌∷◌, map, Some, None};
ghost use Rattle.usuba_model.specs.Entries.{all_declarations, first_width as first_width_of};
ghost use Rattle.usuba_model.specs.Entries.{width_of as width_of_definitions, is_another as is_another_width, mixed};
ghost use Rattle.usuba_model.specs.Entries.{name_place, width_fault};
ghost use Rattle.usuba_model.specs.Faults.{first_of};
ghost use Rattle.usuba_model.specs.Names.{declared_in as declared_in_definition};
ghost use Rattle.usuba_model.specs.Shapes.{base_width as base_width_of};

use crate::definitions::{declared_in, name_of};
use tor_edge::Place;
use usuba_model::{Fault, FaultKind};
use usuba_trees::{Base, Decl, Def, File};

fn base_width(base: Base) -> Option<u32>
    ensures { result ≡ base_width_of base }
{
    match base {
        Base::Poly => None,
        Base::Bits(width) => Some(width),
    }
}

fn first_width(declarations: &[Decl]) -> Option<u32>
    ensures { result ≡ first_width_of declarations.now }
{
    let mut width = None;
    for declaration in declarations {
        width = width.or(base_width(declaration.shape.base));
    }
    width
}

fn first_width_in(definition: &Def) -> Option<u32>
    ensures { result ≡ first_width_of (declared_in_definition definition.now) }
{
    let declared = declared_in(definition);
    first_width(declared.inputs)
        .or(first_width(declared.outputs))
        .or(first_width(declared.locals))
}

/// The width of a program: the one that is asked for, or the first that a type has.
pub fn width_of(file: &File, asked: Option<u32>) -> Option<u32>
    ensures { result ≡ width_of_definitions asked file.now.defs }
{
    let mut width = asked;
    for definition in file.defs.as_slice() {
        width = width.or(first_width_in(definition));
    }
    width
}

fn is_another(own: Option<u32>, width: u32) -> bool
    ensures { result ≡ is_another_width width own }
{
    match own {
        Some(own) => width != own,
        None => false,
    }
}

fn check_declaration(declaration: &Decl, width: u32) -> Option<Fault>
    ensures { result ≡ first_of FaultKind.MixedWidth (mixed width declaration.now ∷ []) }
{
    if is_another(base_width(declaration.shape.base), width) {
        Some(Fault {
            kind: FaultKind::MixedWidth,
            place: declaration.shape.place,
        })
    } else {
        None
    }
}

fn check_declarations(declarations: &[Decl], width: u32) -> Option<Fault>
    ensures { result ≡ first_of FaultKind.MixedWidth (map (mixed width) declarations.now) }
{
    let mut fault = None;
    for declaration in declarations {
        fault = fault.or(check_declaration(declaration, width));
    }
    fault
}

fn check_definition(definition: &Def, width: u32) -> Option<Fault>
    ensures { result ≡ first_of FaultKind.MixedWidth (map (mixed width) (declared_in_definition definition.now)) }
{
    let declared = declared_in(definition);
    check_declarations(declared.inputs, width)
        .or(check_declarations(declared.outputs, width))
        .or(check_declarations(declared.locals, width))
}

/// The first type of another width than the program's.
pub fn mixed_width(file: &File, width: u32) -> Option<Fault>
    ensures { result ≡ first_of FaultKind.MixedWidth (map (mixed width) (all_declarations file.now.defs)) }
{
    let mut fault = None;
    for definition in file.defs.as_slice() {
        fault = fault.or(check_definition(definition, width));
    }
    fault
}

fn place_of_name(file: &File, at: usize) -> Place
    ensures { result ≡ name_place file.now.defs at }
{
    match file.defs.as_slice().get(at) {
        Some(definition) => name_of(definition).place,
        None => Place { line: 1, column: 1 },
    }
}

/// The fault of a program without a width, at the name of its entry, which is a place among the definitions from 0.
pub fn missing_width(file: &File, entry: usize) -> Fault
    ensures { Some result ≡ width_fault file.now.defs entry None }
{
    Fault {
        kind: FaultKind::NoWidth,
        place: place_of_name(file, entry),
    }
}
