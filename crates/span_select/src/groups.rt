ghost use Rattle.std.specs.Prelude.{◌≡◌, ◌+◌, ◌*◌, ◌^◌, ◌<◌, ◌≤◌, ◌++◌, [], ◌∷◌, length, take, All, IfOk, OnOk, OnErr, MatchOption, IsTrue, ◌↔◌};
ghost use Rattle.span_model.specs.Columns.{set_of, sets_of};
ghost use Rattle.span_model.specs.Span.{InSpan};
ghost use Rattle.span_select.specs.Selection.{rows_of, AreLeastNumbers};
ghost use Rattle.span_select.specs.RowGroups.{RowGroups, group_sets};

use crate::words::{lift, take_in_all, word_of};
use gf2_span::{BitRow, Span, copy_rows};
use std::alloc::{AllocError, Global};
use std::marker::Model;

// The rows of a group, and the word of each.
#[derive(Drop)]
struct Group {
    rows: Vec<BitRow>,
    words: Vec<BitRow>,
}

/// Listed groups of rows of one column count.
#[derive(Drop)]
pub struct Groups {
    columns: u32,
    groups: Vec<Group>,
    // the words of the basis rows: the rows that no earlier ones span
    basis: Span,
    // by basis row: the number of its group
    owners: Vec<usize>,
    // false once memory ran out while a group was taken in
    whole: bool,
}

impl Model for Groups {
    ghost use Rattle.std.specs.Prelude.{map};
    ghost use Rattle.gf2_span.specs.Basis.{row_sets};
    ghost use Rattle.span_select.specs.RowGroups.{RowGroups};
    ghost use Rattle.span_select.specs.Words.{IsKept};

    ghost Value = { RowGroups };

    ghost view = { λ kept. record { columns = kept.columns; groups = map (λ group. group.rows.items) kept.groups.items } };

    ghost invariant = { λ kept. IsKept kept.columns kept.basis.columns (map (λ group. group.rows.items) kept.groups.items) (map (λ group. group.words.items) kept.groups.items) (row_sets kept.basis) kept.owners.items kept.whole };
}

impl Groups {
    /// No groups yet, of rows of so many columns.
    pub fn new(alloc: Global, columns: u32) -> Result<Groups, AllocError>
        requires { columns < 2 ^ 31 }
        ensures { IfOk result (λ groups. groups ≡ record { columns = columns; groups = [] }) }
    {
        Ok(Groups {
            columns,
            groups: Vec::new(alloc),
            basis: Span::new(alloc, 2 * columns)?,
            owners: Vec::new(alloc),
            whole: true,
        })
    }

    /// How many groups there are.
    pub fn len(&self) -> usize
        ensures { result ≡ length self.now.groups }
    {
        self.groups.len()
    }

    pub fn is_empty(&self) -> bool
        ensures { IsTrue result ↔ (self.now.groups ≡ []) }
    {
        self.groups.is_empty()
    }

    /// One more group at the end. After want of memory each later `push` and `least` answers the same.
    pub fn push(&mut self, alloc: Global, rows: &[BitRow]) -> Result<(), AllocError>
        requires { All (λ row. length row ≡ self.old.columns) rows.now }
        ensures columns { self.new.columns ≡ self.old.columns }
        ensures ok { OnOk result (self.new.groups ≡ self.old.groups ++ rows.now ∷ []) }
        ensures err { OnErr result (self.new.groups ≡ self.old.groups) }
    {
        if !self.whole {
            return Err(AllocError);
        }
        self.whole = false;
        let group = self.groups.len();
        let words = take_in_all(
            alloc,
            &mut self.basis,
            &mut self.owners,
            group,
            self.columns,
            rows,
        )?;
        let rows = copy_rows(alloc, rows)?;
        self.groups.push(Group { rows, words })?;
        self.whole = true;
        Ok(())
    }

    /// The numbers, in rising order, of the groups of the least selection of the first so many groups whose rows span the leak together with
    /// the own rows, if all of these groups do. It takes time by the rows of the groups that are selected.
    pub fn least(
        &self,
        alloc: Global,
        own: &[BitRow],
        leak: &BitRow,
        groups: u32,
    ) -> Result<Option<Vec<u32>>, AllocError>
        requires own { All (λ row. length row ≡ self.now.columns) own.now }
        requires leak { length leak.now ≡ self.now.columns }
        requires within { groups ≤ length self.now.groups }
        ensures { IfOk result (λ found. MatchOption found
            (¬ InSpan (sets_of own.now ++ rows_of (take groups (group_sets self.now))) (set_of leak.now))
            (λ numbers. AreLeastNumbers (sets_of own.now) (take groups (group_sets self.now)) (set_of leak.now) numbers.items)) }
    {
        if !self.whole {
            return Err(AllocError);
        }
        let mut span = lift(alloc, &self.basis, self.columns, own)?;
        let mut rest = word_of(alloc, &self.basis, leak)?;
        let mut numbers = Vec::new(alloc);
        let mut below = groups as usize;
        while let Some(c) = span.reduce_last(&mut rest) {
            match self.owners.get(c as usize) {
                Some(owner) if *owner < below => {
                    below = *owner;
                    numbers.push(below as u32)?;
                    span.insert_all(alloc, self.groups[below].words.as_slice())?;
                }
                _ => return Ok(None),
            }
        }
        numbers.reverse();
        Ok(Some(numbers))
    }
}
