ghost use Rattle.std.specs.Prelude.{◌≡◌, ◌≤◌, ◌∷◌, [], length, option_map, IfOk, IfErr};
ghost use Rattle.tor_edge.specs.declared.files.TheConstants.{MAX_FILE_BYTES};
ghost use Rattle.usuba0.specs.Circuit.{IsSmall, HasFewColumns};
ghost use Rattle.tornado_words.specs.Ranges.{HasFitWidth};
ghost use Rattle.tornado_main.specs.Bases as bases;
ghost use Rattle.tornado_main.specs.Ending.{Fetched, Nowhere, Stops, IsRefusedFor};
ghost use Rattle.tornado_main.specs.Files.{FileIs};
ghost use Rattle.tornado_main.specs.Steps.{AfterCore};

use crate::core_texts::core_of_text;
use crate::fetch::fetch;
use crate::refusal::Refusal;
use crate::sources::core_of_source;
use crate::status::Status;
use std::alloc::Global;
use tor_edge::{Files, Name};
use tornado_words::Basis;
use usuba0::Core;

/// Fetches a file and reads the core that it has.
pub fn core_of_file<'a, F: Files>(
    alloc: Global,
    name: &'a str,
    basis: &Basis,
    files: &mut F,
) -> Result<Core, Refusal<'a>>
    requires { HasFitWidth basis.now }
    ensures fetched { Fetched F.faults F.too_long F.refused F.fetched F.contents
        (name.now ∷ []) files.old files.new result }
    ensures core { IfOk result (λ core. FileIs (F.contents files.old) name.now (bases.Holds basis.now core)) }
    ensures within { IfOk result (λ core. IsSmall core × HasFewColumns core) }
    ensures refused { IfErr result
        (λ refusal. Stops (AfterCore (F.contents files.old) name.now basis.now Nowhere) refusal) }
{
    let bytes = fetch(alloc, name, files)?;
    core_of_bytes(alloc, name, basis, bytes.as_slice())
}

// The core of the bytes of a file.
fn core_of_bytes<'a>(
    alloc: Global,
    name: &'a str,
    basis: &Basis,
    bytes: &[u8],
) -> Result<Core, Refusal<'a>>
    requires width { HasFitWidth basis.now }
    requires few { length bytes.now ≤ MAX_FILE_BYTES }
    ensures core { IfOk result (λ core. bases.Holds basis.now core bytes.now) }
    ensures within { IfOk result (λ core. IsSmall core × HasFewColumns core) }
    ensures refused { IfErr result
        (λ refusal. IsRefusedFor Status.Source name.now (λ fault. bases.IsFaulty basis.now fault bytes.now) refusal) }
{
    match basis {
        Basis::Source { width, entry } => {
            core_of_source(alloc, name, *width, text_of(entry), bytes)
        }
        Basis::CoreText => core_of_text(alloc, name, bytes),
    }
}

fn text_of(name: &Option<Name>) -> Option<&str>
    ensures { option_map (λ text. text.now) result ≡ name.now }
{
    match name {
        Some(name) => Some(name.as_str()),
        None => None,
    }
}
