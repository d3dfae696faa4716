ghost use Rattle.std.specs.Prelude.{◌≡◌, ◌≤◌, ◌↔◌, ◌⊎◌, [], None, Some, length, Contains, IfSome, IfOk, IsErrOf};
ghost use Rattle.std.specs.Option.{option_copied, unwrap_or};
ghost use Rattle.tor_edge.specs.Count.{Rose};
ghost use Rattle.tor_edge.specs.Fetch.{OnFailed, OnTooLong, OnOkOrTooLong, OnOkOrMemory};
ghost use Rattle.tor_edge.specs.Fetch.{IsFailedOrMemory, IsLongerThan, refused_after, IsFetchedNext};
ghost use Rattle.tor_edge.specs.Held.{file_of};
ghost use Rattle.tor_edge.specs.Trips.{one_more};
ghost use Rattle.tor_edge.specs.declared.files.FetchFault.TheVariants.{Failed};

use crate::fetches::Fetches;
use crate::{FetchFault, Files, List, MAX_FILE_BYTES, Name};
use std::alloc::Global;

/// A file in memory.
#[derive(Debug, Drop)]
pub struct Held {
    pub name: Name,
    pub bytes: List<u8>,
}

/// Files in memory, some of whose fetches are made to fail.
#[derive(Debug, Drop)]
pub struct MemFiles {
    held: List<Held>,
    trips: List<u64>,
    calls: u64,
    fetches: Fetches,
}

impl MemFiles {
    /// Of several files of one name the first counts. The fetches whose numbers, from 0, stand in `trips` fail.
    pub fn new(held: List<Held>, trips: List<u64>) -> MemFiles
        ensures contents { ⟦<MemFiles as Files>⟧.contents result ≡ Some (file_of held) }
        ensures faults { ⟦<MemFiles as Files>⟧.faults result ≡ 0 }
        ensures too_long { ⟦<MemFiles as Files>⟧.too_long result ≡ 0 }
        ensures fetched { ⟦<MemFiles as Files>⟧.fetched result ≡ [] }
        ensures refused { ⟦<MemFiles as Files>⟧.refused result ≡ None }
        ensures held { result.held ≡ held }
        ensures trips { result.trips ≡ trips }
        ensures calls { result.calls ≡ 0 }
    {
        MemFiles {
            held,
            trips,
            calls: 0,
            fetches: Fetches::new(),
        }
    }
}

impl Files for MemFiles {
    ghost faults = { λ files. files.fetches.faults };

    ghost too_long = { λ files. files.fetches.too_long };

    ghost refused = { λ files. files.fetches.refused };

    ghost fetched = { λ files. unwrap_or files.fetches.names [] };

    ghost contents = { λ files. Some (file_of files.held) };

    fn fetch(&mut self, alloc: Global, name: &str) -> Result<List<u8>, FetchFault>
        ensures faults_never_fall { ⟦<MemFiles as Files>⟧.faults self.old ≤ ⟦<MemFiles as Files>⟧.faults self.new }
        ensures too_long_never_falls { ⟦<MemFiles as Files>⟧.too_long self.old ≤ ⟦<MemFiles as Files>⟧.too_long self.new }
        ensures contents_stay { ⟦<MemFiles as Files>⟧.contents self.new ≡ ⟦<MemFiles as Files>⟧.contents self.old }
        ensures failed { OnFailed result (Rose (⟦<MemFiles as Files>⟧.faults self.old) (⟦<MemFiles as Files>⟧.faults self.new)) }
        ensures missing_name { IfSome (⟦<MemFiles as Files>⟧.contents self.old) (λ file. file name.now ≡ None → IsFailedOrMemory result) }
        ensures found_too_long { OnTooLong result (Rose (⟦<MemFiles as Files>⟧.too_long self.old) (⟦<MemFiles as Files>⟧.too_long self.new)) }
        ensures too_long_exactly { IfSome (⟦<MemFiles as Files>⟧.contents self.old) (λ file.
            OnOkOrTooLong result (IsErrOf result FetchFault.TooLong ↔ IsLongerThan MAX_FILE_BYTES (file name.now))) }
        ensures within { IfOk result (λ bytes. length bytes ≤ MAX_FILE_BYTES) }
        ensures told { IfOk result (λ bytes. IfSome (⟦<MemFiles as Files>⟧.contents self.old) (λ file. file name.now ≡ Some bytes)) }
        ensures fetched_next { IsFetchedNext (⟦<MemFiles as Files>⟧.fetched self.old)
            (⟦<MemFiles as Files>⟧.fetched self.new) name.now result }
        ensures last_refused { ⟦<MemFiles as Files>⟧.refused self.new ≡ refused_after (⟦<MemFiles as Files>⟧.refused self.old) name.now result }
        ensures faults_stay { OnOkOrMemory result (⟦<MemFiles as Files>⟧.faults self.new ≡ ⟦<MemFiles as Files>⟧.faults self.old) }
        ensures too_long_stays { OnOkOrMemory result (⟦<MemFiles as Files>⟧.too_long self.new ≡ ⟦<MemFiles as Files>⟧.too_long self.old) }

        // Beyond the trait's clauses: what the trips do.
        ensures held_stay { self.new.held ≡ self.old.held }
        ensures trips_stay { self.new.trips ≡ self.old.trips }
        ensures counted { self.new.calls ≡ one_more self.old.calls }
        ensures tripped { Contains self.old.trips self.old.calls → IsFailedOrMemory result }
        ensures failed_for { OnFailed result (Contains self.old.trips self.old.calls ⊎ (file_of self.old.held name.now ≡ None)) }
    {
        let call = self.calls;
        self.calls = call.saturating_add(1);
        let asked = self.fetches.begin(alloc, name)?;
        let answer = answer(
            alloc,
            self.held.as_slice(),
            self.trips.as_slice(),
            call,
            name,
        );
        self.fetches.end(asked, &answer);
        answer
    }
}

/// A fetch's answer: a fault where this call is one of the trips, else what the held file asks for.
fn answer(
    alloc: Global,
    held: &[Held],
    trips: &[u64],
    call: u64,
    name: &str,
) -> Result<List<u8>, FetchFault>
    ensures tripped { Contains trips.now call → IsErrOf result Failed }
    ensures missing { file_of held.now name.now ≡ None → IsErrOf result Failed }
    ensures failed_for { OnFailed result (Contains trips.now call ⊎ (file_of held.now name.now ≡ None)) }
    ensures ok { IfOk result (λ bytes. file_of held.now name.now ≡ Some bytes) }
    ensures within { IfOk result (λ bytes. length bytes ≤ MAX_FILE_BYTES) }
    ensures found_too_long { OnTooLong result (IsLongerThan MAX_FILE_BYTES (file_of held.now name.now)) }
{
    if trips.contains(&call) {
        return Err(FetchFault::Failed);
    }
    let Some(bytes) = find_file(held, name) else {
        return Err(FetchFault::Failed);
    };
    if bytes.len() > MAX_FILE_BYTES {
        return Err(FetchFault::TooLong);
    }
    Ok(List::from_slice(alloc, bytes)?)
}

pub(crate) fn find_file<'a>(held: &'a [Held], name: &str) -> Option<&'a [u8]>
    ensures { option_copied result ≡ file_of held.now name.now }
{
    let file = held.iter().find(|file| file.name.as_str() == name)?;
    Some(file.bytes.as_slice())
}
