// Which cells are assigned, and which are read.
ghost use Rattle.std.specs.Prelude.{◌≡◌, ◌+◌, ◌<◌, ◌^◌, ◌&&◌, not, IfOk};
ghost use Rattle.ready_order.specs.Numbered.{AreBelow, lacks_assigned, lacks_read};
ghost use Rattle.ready_order.specs.Uses.{has_mark, IsUsedBy};

use crate::marks::{is_set, mark_left, mark_read};
use std::alloc::{AllocError, Global};
use std::marker::Model;
use usuba_code::Table;

/// Which cells some instance assigns, and which one reads.
#[derive(Drop)]
pub struct Uses {
    assigned: Vec<bool>,
    read: Vec<bool>,
}

impl Model for Uses {
    ghost use Rattle.ready_order.specs.Uses.{Used};

    ghost Value = { Used };

    ghost view = { λ uses. record { assigned = uses.assigned.items; read = uses.read.items } };
}

impl Uses {
    /// The cells that the instances of a table assign and read; all are below `cells`.
    pub fn of(alloc: Global, table: &Table, cells: u32) -> Result<Uses, AllocError>
        requires { AreBelow cells table.now.done }
        ensures { IfOk result (λ uses. IsUsedBy table.now.done uses) }
    {
        let mut assigned = vec![in alloc; false; cells as usize]?;
        let mut read = vec![in alloc; false; cells as usize]?;
        for k in 0..table.len() {
            mark_left(table, k, &mut assigned);
            mark_read(table.operations(k), &mut read);
        }
        Ok(Uses { assigned, read })
    }

    fn is_unassigned(&self, cell: u32) -> bool
        ensures { result ≡ not (has_mark self.now.assigned cell) }
    {
        !is_set(&self.assigned, cell)
    }

    fn is_read(&self, cell: u32) -> bool
        ensures { result ≡ has_mark self.now.read cell }
    {
        is_set(&self.read, cell)
    }

    fn is_read_unassigned(&self, cell: u32) -> bool
        ensures { result ≡ (has_mark self.now.read cell && not (has_mark self.now.assigned cell)) }
    {
        self.is_read(cell) && self.is_unassigned(cell)
    }

    /// Whether one of `count` cells from `first` on is not assigned.
    pub fn lacks_assigned(&self, first: u32, count: u32) -> bool
        requires { first + count < 2 ^ 32 }
        ensures { result ≡ lacks_assigned (has_mark self.now.assigned) first count }
    {
        for cell in first..first + count {
            if self.is_unassigned(cell) {
                return true;
            }
        }
        false
    }

    /// Whether one of `count` cells from `first` on is read, and not assigned.
    pub fn lacks_read(&self, first: u32, count: u32) -> bool
        requires { first + count < 2 ^ 32 }
        ensures { result ≡ lacks_read (has_mark self.now.assigned) (has_mark self.now.read) first count }
    {
        for cell in first..first + count {
            if self.is_read_unassigned(cell) {
                return true;
            }
        }
        false
    }
}
