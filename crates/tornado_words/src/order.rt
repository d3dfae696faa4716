ghost use Rattle.std.specs.Prelude.{◌≡◌};
ghost use Rattle.tornado_words.specs.declared.order.WordFault.TheVariants.{Memory};

use std::alloc::AllocError;
use thiserror::Error;
use tor_edge::Name;

/// What a file is read as.
#[derive(Debug, Drop)]
pub enum Basis {
    /// A source. `width` is the bits of a register whose type leaves them open, and `entry` the node that is meant,
    /// if it is not the last.
    Source {
        width: Option<u32>,
        entry: Option<Name>,
    },
    /// The text of a circuit.
    CoreText,
}

/// What the words ask for, with the names of the files.
#[derive(Debug, Drop)]
pub enum Order {
    /// The text of the circuit of a source.
    Core {
        file: Name,
        basis: Basis,
    },
    /// The outputs of the circuit at given inputs.
    Eval {
        file: Name,
        values: Name,
        basis: Basis,
    },
    /// The rows of the operands of its products.
    Rows {
        file: Name,
        basis: Basis,
    },
    /// Whether it has an attack, and one that it has.
    Check {
        file: Name,
        basis: Basis,
    },
    /// Whether the attack of another file is one on it.
    Verify {
        file: Name,
        attack: Name,
        basis: Basis,
    },
    /// The circuit with refreshes, so that it has no attack.
    Repair {
        file: Name,
        basis: Basis,
    },
    /// The masked C of the repaired circuit, on registers of `word` bits where that is said.
    Compile {
        file: Name,
        word: Option<u32>,
        basis: Basis,
    },
    /// The output shares of a file of masked C at given shares.
    Run {
        cfile: Name,
        values: Name,
    },
    /// The output shares of the masked circuit at inputs that are drawn from the seed.
    Trial {
        file: Name,
        shares: u32,
        seed: u64,
        basis: Basis,
    },
    /// A source of `size` products that is drawn from the seed, and whether its circuit has an attack.
    Gen {
        seed: u64,
        size: u32,
    },
}

/// Why words give no order.
#[derive(Debug, Drop, Error)]
pub enum WordFault {
    /// They are no command.
    #[error("no command")]
    Usage,
    #[error("out of memory")]
    Memory(AllocError),
}

impl From<AllocError> for WordFault {
    ghost from_gives = { λ error fault. fault ≡ Memory error };

    fn from(error: AllocError) -> WordFault {
        WordFault::Memory(error)
    }
}
