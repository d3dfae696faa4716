ghost use Rattle.std.specs.Prelude.{◌≡◌, ◌≢◌, ℕ, ◌≤◌, List, [], Option, OnOk, OnErr};
ghost use Rattle.tor_edge.specs.Count.{Rose};
ghost use Rattle.tor_edge.specs.Written.{appended, AppendsPrefix};

use thiserror::Error;

/// What takes the bytes that a program writes.
pub trait Sink {
    // How many faults came so far.
    ghost faults: { Self → ℕ };

    // The bytes that were written so far, where the sink tells them.
    ghost written: { Self → Option (List ℕ) };

    fn put(&mut self, piece: &[u8]) -> Result<(), PutFault>
        requires { piece.now ≢ [] }
        ensures never_falls { faults self.old ≤ faults self.new }
        ensures whole { OnOk result (written self.new ≡ appended (written self.old) piece.now) }
        ensures ok_keeps_count { OnOk result (faults self.new ≡ faults self.old) }
        ensures failed { OnErr result (Rose (faults self.old) (faults self.new)) }
        ensures prefix { OnErr result (AppendsPrefix (written self.old) (written self.new) piece.now) };
}

/// Why a piece was not written whole.
#[derive(Debug, Clone, Copy, PartialEq, Eq, Error)]
pub enum PutFault {
    #[error("the sink could not take the bytes")]
    Failed,
}
