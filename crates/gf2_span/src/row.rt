ghost use Rattle.std.specs.Prelude.{◌≡◌, ◌≢◌, ℕ, ◌<◌, ◌≤◌, ◌↔◌, length, not, true, false, slice_index_or, slice_set, replicate, IsTrue, IfOk, MatchBool, MatchOption};
ghost use Rattle.span_model.specs.Columns.{set_of, empty, ◌△◌};
ghost use Rattle.gf2_span.specs.Rows.{IsFirst, IsFirstFrom, IsLast};
ghost use Rattle.gf2_span.specs.Words.{IsLastBelow};

use crate::words::{add_words, are_same, first_bit_from, last_bit, overwrite_words};
use std::alloc::{AllocError, Global};
use std::marker::Model;

/// A set of columns, as one bit for each column. Contracts see the list of the bits.
#[derive(Debug, Drop)]
pub struct BitRow {
    words: Vec<u64>,
    columns: u32,
    // the words from this number on are zero
    end: usize,
}

impl Model for BitRow {
    ghost use Rattle.std.specs.Prelude.{List, Bool};
    ghost use Rattle.gf2_span.specs.Words.{bits_of, IsRow};

    ghost Value = { List Bool };

    ghost view = { λ row. bits_of row.columns row.words.items };

    ghost invariant = { λ row. IsRow row.columns row.words.items row.end };
}

impl BitRow {
    /// The empty row of so many columns.
    pub fn new(alloc: Global, columns: u32) -> Result<BitRow, AllocError>
        ensures { IfOk result (λ row. row ≡ replicate columns false) }
    {
        let words = vec![in alloc; 0u64; (columns as usize + 63) / 64]?;
        Ok(BitRow {
            words,
            columns,
            end: 0,
        })
    }

    pub fn copy(&self, alloc: Global) -> Result<BitRow, AllocError>
        ensures { IfOk result (λ row. row ≡ self.now) }
    {
        let words = Vec::from_slice(alloc, self.words.as_slice())?;
        Ok(BitRow {
            words,
            columns: self.columns,
            end: self.end,
        })
    }

    pub fn columns(&self) -> u32
        ensures { result ≡ length self.now }
    {
        self.columns
    }

    /// Whether a column is in the set. None at or past the column count is.
    pub fn has(&self, c: u32) -> bool
        ensures { result ≡ set_of self.now c }
    {
        match self.words.get(c as usize / 64) {
            Some(word) => (*word >> (c % 64)) & 1 == 1,
            None => false,
        }
    }

    /// Puts a column in where it was not there, and takes it out where it was.
    pub fn flip(&mut self, c: u32)
        requires { c < length self.old }
        ensures { self.new ≡ slice_set self.old c (not (slice_index_or self.old c false)) }
    {
        let place = c as usize / 64;
        self.words[place] ^= 1 << (c % 64);
        self.end = self.end.max(place + 1);
    }

    /// The symmetric difference with another row.
    pub fn add(&mut self, other: &BitRow)
        requires { length self.old ≡ length other.now }
        ensures columns { length self.new ≡ length self.old }
        ensures sum { set_of self.new ≡ set_of self.old △ set_of other.now }
    {
        add_words(&mut self.words, &other.words, other.end);
        self.end = self.end.max(other.end);
    }

    /// Whether the row is the same as another, over as many columns.
    pub fn equals(&self, other: &BitRow) -> bool
        ensures { MatchBool result (self.now ≡ other.now) (self.now ≢ other.now) }
    {
        if self.columns != other.columns {
            return false;
        }
        are_same(&self.words, &other.words, self.end.max(other.end))
    }

    pub fn is_zero(&self) -> bool
        ensures { IsTrue result ↔ (set_of self.now ≡ empty) }
    {
        self.first().is_none()
    }

    /// The least column.
    pub fn first(&self) -> Option<u32>
        ensures { MatchOption result (set_of self.now ≡ empty) (λ c. (c < length self.now) × IsFirst (set_of self.now) c) }
    {
        self.first_from(0)
    }

    /// The least column from `start` on.
    pub fn first_from(&self, start: u32) -> Option<u32>
        ensures { MatchOption result ((c : ℕ) → start ≤ c → set_of self.now c ≡ false) (λ c. (c < length self.now) × IsFirstFrom (set_of self.now) start c) }
    {
        match first_bit_from(&self.words, start as usize, self.end) {
            Some(c) => Some(c as u32),
            None => None,
        }
    }

    /// The greatest column.
    pub fn last(&self) -> Option<u32>
        ensures { MatchOption result (set_of self.now ≡ empty) (λ c. (c < length self.now) × IsLast (set_of self.now) c) }
    {
        self.last_before(self.columns)
    }

    // The greatest column below `end`.
    pub(crate) fn last_before(&self, end: u32) -> Option<u32>
        requires { end ≤ length self.now }
        ensures { MatchOption result ((c : ℕ) → c < end → set_of self.now c ≡ false) (λ c. IsLastBelow (set_of self.now) end c) }
    {
        match last_bit(&self.words, (end as usize).min(64 * self.end)) {
            Some(c) => Some(c as u32),
            None => None,
        }
    }

    // Notes that the row has no column past `lead`, so that fewer of its words are looked at.
    pub(crate) fn cut_past(&mut self, lead: u32)
        requires { (c : ℕ) → lead < c → set_of self.old c ≡ false }
        ensures { self.new ≡ self.old }
    {
        self.end = self.end.min(lead as usize / 64 + 1);
    }

    // Makes the row equal to another.
    pub(crate) fn overwrite(&mut self, other: &BitRow)
        requires { length self.old ≡ length other.now }
        ensures { self.new ≡ other.now }
    {
        overwrite_words(&mut self.words, self.end, &other.words, other.end);
        self.end = other.end;
    }
}

/// Copies of the rows, in order.
pub fn copy_rows(alloc: Global, rows: &[BitRow]) -> Result<Vec<BitRow>, AllocError>
    ensures { IfOk result (λ copies. copies.items ≡ rows.now) }
{
    let mut copies = Vec::new(alloc);
    for row in rows {
        copies.push(row.copy(alloc)?)?;
    }
    Ok(copies)
}
