ghost use Rattle.std.specs.Prelude.{◌≡◌, Some, []};

use std::alloc::Global;
use tor_edge::{PutFault, Sink};

/// A text in memory that grows. A put that finds no memory fails, and keeps nothing of its piece.
#[derive(Debug, Drop)]
pub(crate) struct Draft {
    bytes: Vec<u8>,
    faults: u64,
}

impl Draft {
    pub(crate) fn new(alloc: Global) -> Draft
        ensures { ⟦<Draft as Sink>⟧.written result ≡ Some [] }
    {
        Draft {
            bytes: Vec::new(alloc),
            faults: 0,
        }
    }

    pub(crate) fn into_bytes(self) -> Vec<u8>
        ensures { ⟦<Draft as Sink>⟧.written self ≡ Some result.items }
    {
        let Draft { bytes, faults: _ } = self;
        bytes
    }
}

impl Sink for Draft {
    ghost faults = { λ draft. draft.faults };

    ghost written = { λ draft. Some draft.bytes.items };

    fn put(&mut self, piece: &[u8]) -> Result<(), PutFault> {
        if self.bytes.extend_from_slice(piece).is_err() {
            self.faults = self.faults.saturating_add(1);
            return Err(PutFault::Failed);
        }
        Ok(())
    }
}
