//! Files and a sink that never fail.
ghost use Rattle.std.specs.Prelude.{◌≡◌, ◌≢◌, ℕ, ◌+◌, ◌-◌, ◌<◌, ◌≤◌, ◌^◌, ◌↔◌, [], None, Some, All, length, min, IfSome, IfOk, IsOk, IsTrue, IsNone, IsErrOf, OnOk, OnErr};
ghost use Rattle.std.specs.Option.{unwrap_or};
ghost use Rattle.tor_edge.specs.Count.{Rose};
ghost use Rattle.tor_edge.specs.Fetch.{OnFailed, OnTooLong, OnOkOrTooLong, OnOkOrMemory};
ghost use Rattle.tor_edge.specs.Fetch.{IsFailedOrMemory, IsLongerThan, refused_after, IsFetchedNext};
ghost use Rattle.tor_edge.specs.Held.{steady_file_of};
ghost use Rattle.tor_edge.specs.declared.files.TheConstants.{MAX_FILE_BYTES};
ghost use Rattle.tor_edge.specs.Written.{appended, AppendsPrefix};

use crate::fetches::add_name;
use crate::mem_files::find_file;
use crate::{FetchFault, Files, Held, List, MAX_FILE_BYTES, Name, PutFault, Sink};
use std::alloc::Global;

/// Files in memory, none of whose fetches fails or is too long. Of several files of one name the first counts, and
/// a name that is not held is an empty file.
#[derive(Debug, Drop)]
pub struct SteadyFiles {
    held: List<Held>,
    names: Option<List<Name>>,
    ghost within: { All (λ file. length file.bytes ≤ MAX_FILE_BYTES) held },
}

impl SteadyFiles {
    /// None where one of the files, also one that does not count, is longer than a fetched file may be.
    pub fn new(held: List<Held>) -> Option<SteadyFiles>
        ensures within { IsNone result ↔ ¬ All (λ file. length file.bytes ≤ MAX_FILE_BYTES) held }
        ensures contents { IfSome result (λ files. ⟦<SteadyFiles as Files>⟧.contents files ≡ Some (steady_file_of held)) }
        ensures fetched { IfSome result (λ files. ⟦<SteadyFiles as Files>⟧.fetched files ≡ []) }
    {
        if are_short(held.as_slice()) {
            Some(SteadyFiles { held, names: None })
        } else {
            None
        }
    }
}

fn are_short(held: &[Held]) -> bool
    ensures { IsTrue result ↔ All (λ file. length file.bytes ≤ MAX_FILE_BYTES) held.now }
{
    held.iter().all(|file| file.bytes.len() <= MAX_FILE_BYTES)
}

impl Files for SteadyFiles {
    ghost faults = { λ files. 0 };

    ghost too_long = { λ files. 0 };

    ghost refused = { λ files. None };

    ghost fetched = { λ files. unwrap_or files.names [] };

    ghost contents = { λ files. Some (steady_file_of files.held) };

    fn fetch(&mut self, alloc: Global, name: &str) -> Result<List<u8>, FetchFault> {
        add_name(alloc, &mut self.names, Name::of(alloc, name)?)?;
        Ok(List::from_slice(alloc, steady_file(self.held.as_slice(), name))?)
    }
}

fn steady_file<'a>(held: &'a [Held], name: &str) -> &'a [u8]
    requires { All (λ file. length file.bytes ≤ MAX_FILE_BYTES) held.now }
    ensures file { Some result.now ≡ steady_file_of held.now name.now }
    ensures within { length result.now ≤ MAX_FILE_BYTES }
{
    match find_file(held, name) {
        Some(bytes) => bytes,
        None => &[],
    }
}

/// A sink that takes all bytes, and keeps how many they were.
#[derive(Debug, Drop)]
pub struct SteadySink {
    taken: u64,
}

impl SteadySink {
    pub fn new() -> SteadySink
        ensures { result.taken ≡ 0 }
    {
        SteadySink { taken: 0 }
    }

    /// How many bytes were put so far; from 2^64 - 1 on it stays.
    pub fn taken(&self) -> u64
        ensures { result ≡ self.now.taken }
    {
        self.taken
    }
}

impl Sink for SteadySink {
    ghost faults = { λ sink. 0 };

    ghost written = { λ sink. None };

    fn put(&mut self, piece: &[u8]) -> Result<(), PutFault>
        ensures never_fails { IsOk result }
        ensures counted { self.new.taken ≡ min (self.old.taken + length piece.now) 18446744073709551615 }
    {
        self.taken = self.taken.saturating_add(piece.len() as u64);
        Ok(())
    }
}
