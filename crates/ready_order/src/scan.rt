// Takes instances that are ready, one after another.
ghost use Rattle.std.specs.Prelude.{◌≡◌, ◌<◌, ◌≤◌, ◌^◌, ℕ, true, [], length, replicate, false, nat_lt, IfOk, OnOk, MatchOption};
ghost use Rattle.std.specs.List.{range_with_len};
ghost use Rattle.ready_order.specs.Numbered.{input_numbers};
ghost use Rattle.ready_order.specs.State.Marks.{is_marked, all_marked};
ghost use Rattle.ready_order.specs.State.Scan.{progress, is_open, considered, all_considered, set_count, Leads, IsSettled, IsFirstLeft};

use crate::marks::{input_marks, mark_left, reads_known};
use std::alloc::{AllocError, Global};
use usuba_code::Table;

// The cells that are known, the instances that are taken, and these in the order in which they were taken.
#[derive(Drop)]
pub(crate) struct Scan {
    pub known: Vec<bool>,
    pub taken: Vec<bool>,
    pub order: Vec<u32>,
}

impl Scan {
    // Nothing is taken yet, and the inputs are known.
    pub(crate) fn new(
        alloc: Global,
        instances: usize,
        inputs: u32,
        cells: u32,
    ) -> Result<Scan, AllocError>
        ensures { IfOk result (λ scan. progress scan ≡ record {
          known = all_marked (replicate cells false) (input_numbers inputs);
          taken = replicate instances false;
          order = [];
        }) }
    {
        Ok(Scan {
            known: input_marks(alloc, inputs, cells)?,
            taken: vec![in alloc; false; instances]?,
            order: Vec::new(alloc),
        })
    }

    // Whether instance `k` is not taken yet and is ready.
    fn is_open(&self, table: &Table, k: u32) -> bool
        requires { length self.now.taken.items ≡ length table.now.done }
        ensures { result ≡ is_open table.now.done k (progress self.now) }
    {
        match self.taken.get(k as usize) {
            Some(false) => reads_known(table.operations(k as usize), &self.known),
            _ => false,
        }
    }

    // Takes instance `k` where it is open.
    fn consider(&mut self, table: &Table, k: u32) -> Result<(), AllocError>
        requires { length self.old.taken.items ≡ length table.now.done }
        ensures { OnOk result (progress self.new ≡ considered table.now.done k (progress self.old)) }
    {
        if self.is_open(table, k) {
            self.order.push(k)?;
            self.taken[k as usize] = true;
            mark_left(table, k as usize, &mut self.known);
        }
        Ok(())
    }

    // Considers these instances one after another; a number of no instance is passed over.
    pub(crate) fn follow(&mut self, table: &Table, hint: &[u32]) -> Result<(), AllocError>
        requires { length self.old.taken.items ≡ length table.now.done }
        ensures { OnOk result (progress self.new ≡ all_considered table.now.done hint.now (progress self.old)) }
    {
        for k in hint {
            self.consider(table, *k)?;
        }
        Ok(())
    }

    // Considers all instances in walk order. Whether one was taken.
    pub(crate) fn pass(&mut self, table: &Table) -> Result<bool, AllocError>
        requires as_many { length self.old.taken.items ≡ length table.now.done }
        requires few { length table.now.done < 2 ^ 32 }
        ensures passed { OnOk result (progress self.new ≡ all_considered table.now.done (range_with_len 0 (length table.now.done)) (progress self.old)) }
        ensures moved { IfOk result (λ moved. moved ≡ nat_lt (length self.old.order.items) (length self.new.order.items)) }
    {
        let before = self.order.len();
        for k in 0..table.len() as u32 {
            self.consider(table, k)?;
        }
        Ok(self.order.len() > before)
    }

    // Goes over the instances again and again, until none is open.
    pub(crate) fn settle(&mut self, table: &Table) -> Result<(), AllocError>
        requires as_many { length self.old.taken.items ≡ length table.now.done }
        requires count { set_count self.old.taken.items ≡ length self.old.order.items }
        requires few { length table.now.done < 2 ^ 32 }
        ensures leads { OnOk result (Leads table.now.done (progress self.old) (progress self.new)) }
        ensures settled { OnOk result (IsSettled table.now.done (progress self.new)) }
    {
        while self.pass(table)? {}
        Ok(())
    }

    // The first instance that is not taken.
    pub(crate) fn first_left(&self) -> Option<usize>
        ensures { MatchOption result ((k : ℕ) → k < length self.now.taken.items → is_marked self.now.taken.items k ≡ true) (λ k. IsFirstLeft self.now.taken.items k) }
    {
        for (k, taken) in self.taken.iter().enumerate() {
            if !*taken {
                return Some(k);
            }
        }
        None
    }
}
