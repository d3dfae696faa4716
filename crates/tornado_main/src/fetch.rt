ghost use Rattle.std.specs.Prelude.{◌∷◌, [], IfOk, IfErr};
ghost use Rattle.tornado_main.specs.Ending.{Fetched, IsUnread};
ghost use Rattle.tornado_main.specs.Files.{IsFetched};

use crate::refusal::Refusal;
use std::alloc::Global;
use tor_edge::{FetchFault, Files, List, Reason};

/// Fetches a file.
pub fn fetch<'a, F: Files>(
    alloc: Global,
    name: &'a str,
    files: &mut F,
) -> Result<List<u8>, Refusal<'a>>
    ensures fetched { Fetched F.faults F.too_long F.refused F.fetched F.contents
        (name.now ∷ []) files.old files.new result }
    ensures bytes { IfOk result (λ bytes. IsFetched (F.contents files.old) name.now bytes) }
    ensures refused { IfErr result (λ refusal. IsUnread (F.contents files.old) name.now refusal) }
{
    match files.fetch(alloc, name) {
        Ok(bytes) => Ok(bytes),
        Err(FetchFault::Failed) => Err(Refusal::Unread(name, Reason::Failed)),
        Err(FetchFault::TooLong) => Err(Refusal::Unread(name, Reason::TooLong)),
        Err(FetchFault::Memory(_)) => Err(Refusal::Memory),
    }
}
