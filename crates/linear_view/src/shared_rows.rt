ghost use Rattle.std.specs.Prelude.{◌≡◌, length, IfOk};

use gf2_span::BitRow;
use std::alloc::{AllocError, Global};
use std::marker::Model;
use std::rc::Rc;
use tor_edge::List;

/// Rows that are held once by all that share them. Contracts see the list of the rows.
#[derive(Drop)]
pub struct SharedRows {
    held: Rc<List<BitRow>, Global>,
    // the same in all that share the rows. It is a hint to where equal rows may be, on which nothing that holds of rows depends
    number: u32,
}

// The number of rows that were not numbered.
const NO_NUMBER: u32 = u32::MAX;

impl Model for SharedRows {
    ghost use Rattle.std.specs.Prelude.{List, Bool};

    ghost Value = { List (List Bool) };

    ghost view = { λ rows. rows.held.value };
}

impl SharedRows {
    /// The rows, held by nothing else yet.
    pub fn new(alloc: Global, rows: List<BitRow>) -> Result<SharedRows, AllocError>
        ensures { IfOk result (λ shared. shared ≡ rows) }
    {
        let held = Rc::new(alloc, rows)?;
        Ok(SharedRows {
            held,
            number: NO_NUMBER,
        })
    }

    /// The same rows, of which nothing is copied.
    pub fn share(&self) -> Result<SharedRows, AllocError>
        ensures { IfOk result (λ shared. shared ≡ self.now) }
    {
        let held = self.held.clone()?;
        Ok(SharedRows {
            held,
            number: self.number,
        })
    }

    pub fn as_list(&self) -> &List<BitRow>
        ensures { result.now ≡ self.now }
    {
        self.held.as_ref()
    }

    pub fn as_slice(&self) -> &[BitRow]
        ensures { result.now ≡ self.now }
    {
        self.held.as_ref().as_slice()
    }

    pub fn len(&self) -> usize
        ensures { result ≡ length self.now }
    {
        self.held.as_ref().len()
    }

    // The number that the rows were given.
    pub(crate) fn number(&self) -> u32 {
        self.number
    }

    // Gives the rows a number.
    pub(crate) fn set_number(&mut self, number: u32)
        ensures { self.new ≡ self.old }
    {
        self.number = number;
    }
}
