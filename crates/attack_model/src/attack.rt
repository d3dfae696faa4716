ghost use Rattle.std.specs.Prelude.{◌≡◌};
ghost use Rattle.attack_model.specs.Derivations.{operand_of};

use gf2_span::BitRow;
use linear_view::{Operand, Side};
use tor_edge::List;

/// The most probes that are listed.
pub const MAX_PROBES: u32 = 100_000;

/// An operand of a product, and the numbers of the earlier steps whose co-operands it is probed with.
#[derive(Debug, Drop)]
pub struct Step {
    pub product: u32,
    pub side: Side,
    pub uses: List<u32>,
}

/// How a leak is derived: the steps in order, and the numbers of the steps whose co-operands sum up to the leak.
#[derive(Debug, Drop)]
pub struct Derivation {
    /// The columns that leak, over the columns of the view.
    pub leak: BitRow,
    pub steps: List<Step>,
    pub root: List<u32>,
}

/// A probe of a product, by the numbers of the shares of its operands.
#[derive(Debug, Clone, Copy, PartialEq, Eq)]
pub struct Probe {
    pub product: u32,
    pub left_share: u32,
    pub right_share: u32,
}

/// The probes of an attack, if they are few enough to be listed.
#[derive(Debug, Drop)]
pub enum Listing {
    Probes(List<Probe>),
    Large,
}

#[derive(Debug, Drop)]
pub struct Attack {
    pub derivation: Derivation,
    pub listing: Listing,
}

impl Step {
    /// The operand that the step takes.
    pub fn operand(&self) -> Operand
        ensures { result ≡ operand_of self.now }
    {
        Operand {
            product: self.product,
            side: self.side,
        }
    }
}
