ghost use Rattle.std.specs.Prelude.{◌≡◌, ℕ, ◌<◌, ◌≤◌, ◌↔◌, List, Option, None, Some, length, IfSome, IfOk, IsErrOf};
ghost use Rattle.tor_edge.specs.Count.{Rose};
ghost use Rattle.tor_edge.specs.Fetch.{OnFailed, OnTooLong, OnOkOrTooLong, OnOkOrMemory};
ghost use Rattle.tor_edge.specs.Fetch.{IsFailedOrMemory, IsLongerThan, refused_after, IsFetchedNext};
ghost use Rattle.tor_edge.specs.declared.files.Refusal.{Refusal};
ghost use Rattle.tor_edge.specs.declared.files.FetchFault.TheVariants.{Memory};

use crate::{List, Name};
use std::alloc::{AllocError, Global};
use thiserror::Error;

/// The most bytes that a fetched file may have.
pub const MAX_FILE_BYTES: usize = 1_048_576;

/// The value of each limit, since a clause that only names a limit holds whatever its value is.
pub fn limits()
    ensures { MAX_FILE_BYTES ≡ 1048576 }
{}

/// Where a program reads its files, each by its name.
pub trait Files {
    // How many faults came so far.
    ghost faults: { Self → ℕ };

    // How many files were found too long so far.
    ghost too_long: { Self → ℕ };

    // The last fetch that was refused by a fault or for its file's length.
    ghost refused: { Self → Option Refusal };

    // The names that were fetched so far, in order.
    ghost fetched: { Self → List (List ℕ) };

    // The bytes of each name's file, where the contents are told.
    ghost contents: { Self → Option (List ℕ → Option (List ℕ)) };

    fn fetch(&mut self, alloc: Global, name: &str) -> Result<List<u8>, FetchFault>
        ensures faults_never_fall { faults self.old ≤ faults self.new }
        ensures too_long_never_falls { too_long self.old ≤ too_long self.new }
        ensures contents_stay { contents self.new ≡ contents self.old }

        ensures failed { OnFailed result (Rose (faults self.old) (faults self.new)) }
        ensures missing_name { IfSome (contents self.old) (λ file. file name.now ≡ None → IsFailedOrMemory result) }

        ensures found_too_long { OnTooLong result (Rose (too_long self.old) (too_long self.new)) }
        // Where no fault came and memory was there.
        ensures too_long_exactly { IfSome (contents self.old) (λ file.
            OnOkOrTooLong result (IsErrOf result FetchFault.TooLong ↔ IsLongerThan MAX_FILE_BYTES (file name.now))) }

        ensures within { IfOk result (λ bytes. length bytes ≤ MAX_FILE_BYTES) }
        ensures told { IfOk result (λ bytes. IfSome (contents self.old) (λ file. file name.now ≡ Some bytes)) }

        ensures fetched_next { IsFetchedNext (fetched self.old) (fetched self.new) name.now result }
        ensures last_refused { refused self.new ≡ refused_after (refused self.old) name.now result }
        ensures faults_stay { OnOkOrMemory result (faults self.new ≡ faults self.old) }
        ensures too_long_stays { OnOkOrMemory result (too_long self.new ≡ too_long self.old) };
}

/// Why a file was not fetched.
#[derive(Debug, Drop, Error)]
pub enum FetchFault {
    #[error("the file could not be read")]
    Failed,
    #[error("the file is too long")]
    TooLong,
    #[error("out of memory")]
    Memory(AllocError),
}

impl From<AllocError> for FetchFault {
    ghost from_gives = { λ error fault. fault ≡ Memory error };

    fn from(error: AllocError) -> FetchFault {
        FetchFault::Memory(error)
    }
}

/// Which of its two faults refused a fetch.
#[derive(Debug, Clone, Copy, PartialEq, Eq)]
pub enum Reason {
    Failed,
    TooLong,
}

/// A fetch that was refused: the name that was asked for, and why.
#[derive(Debug, Drop)]
pub struct Refusal {
    pub name: Name,
    pub reason: Reason,
}
