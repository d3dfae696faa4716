ghost use Rattle.std.specs.Prelude.{◌≡◌, ◌<◌, length, option_map, Some, None, IfSome, if◌then◌else◌};
ghost use Rattle.usuba_model.specs.Entries.{entry_of as entry_of_definitions};
ghost use Rattle.usuba_phases.specs.State.Phases.{may_be_entry};

use usuba_trees::{Def, File};

fn is_asked_for(definition: &Def, asked: Option<&str>) -> bool
    ensures { result ≡ may_be_entry (option_map (λ name. name.now) asked.entry) definition.now }
{
    match definition {
        Def::Node(node) => match asked {
            Some(name) => node.name.text.as_str() == name,
            None => true,
        },
        Def::Table(_) => false,
        Def::Perm(_) => false,
    }
}

// The place of a definition, where it may be the entry.
fn entry_at(index: usize, definition: &Def, asked: Option<&str>) -> Option<usize>
    ensures { result ≡
        (if may_be_entry (option_map (λ name. name.now) asked.entry) definition.now then Some index else None) }
{
    if is_asked_for(definition, asked) {
        Some(index)
    } else {
        None
    }
}

/// The place among the definitions, counted from 0, of the node that is asked for, or of the last node; none where
/// there is no such node.
pub fn entry_of(file: &File, asked: Option<&str>) -> Option<usize>
    ensures entry { result ≡ entry_of_definitions (option_map (λ name. name.now) asked.entry) file.now.defs }
    ensures within { IfSome result (λ entry. entry < length file.now.defs) }
{
    let mut entry = None;
    for (index, definition) in file.defs.as_slice().iter().enumerate() {
        entry = entry_at(index, definition, asked).or(entry);
    }
    entry
}
