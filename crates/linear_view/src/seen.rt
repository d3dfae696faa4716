// Rows of operands that were seen, so that equal ones are held once.
ghost use Rattle.std.specs.Prelude.{◌≡◌, ◌≢◌, ℕ, length, IfOk, IfSome, MatchBool};

use crate::shared_rows::SharedRows;
use gf2_span::BitRow;
use std::alloc::{AllocError, Global};
use std::collections::HashMap;

// Of how many of a row's first columns its key is made.
const FIRST_COLUMNS: u32 = 8;

// The rows that were seen last of each key. Equal rows have the same key.
#[derive(Drop)]
pub(crate) struct Seen {
    by_key: HashMap<u64, SharedRows>,
    // how many were noted
    noted: u32,
}

impl Seen {
    // None yet.
    pub(crate) fn new(alloc: Global) -> Seen {
        Seen {
            by_key: HashMap::new(alloc),
            noted: 0,
        }
    }

    // Rows with this key that are equal to these, if there are any.
    pub(crate) fn find(&self, key: u64, rows: &[BitRow]) -> Result<Option<SharedRows>, AllocError>
        ensures { IfOk result (λ found. IfSome found (λ seen. seen ≡ rows.now)) }
    {
        if let Some(seen) = self.by_key.get(&key) {
            if are_equal(seen.as_slice(), rows) {
                return Ok(Some(seen.share()?));
            }
        }
        Ok(None)
    }

    // Notes rows with this key, and gives them the next number.
    pub(crate) fn note(&mut self, key: u64, rows: &mut SharedRows) -> Result<(), AllocError>
        ensures { rows.new ≡ rows.old }
    {
        rows.set_number(self.noted);
        self.noted = self.noted.saturating_add(1);
        let _before = self.by_key.insert(key, rows.share()?)?;
        Ok(())
    }
}

// The key of rows.
pub(crate) fn key_of(rows: &[BitRow]) -> u64 {
    let mut key = 0;
    for row in rows {
        key = with_row(key, row);
    }
    key
}

// A key with a row more: with the row's greatest column and its first few, which tell most rows apart.
fn with_row(key: u64, row: &BitRow) -> u64 {
    let mut key = with_column(key, row.last().unwrap_or(0));
    let mut start = 0;
    for _ in 0..FIRST_COLUMNS {
        let Some(c) = row.first_from(start) else {
            return key;
        };
        key = with_column(key, c);
        start = c.saturating_add(1);
    }
    key
}

// A key with a column more.
fn with_column(key: u64, column: u32) -> u64 {
    key.wrapping_mul(0x9e37_79b9_7f4a_7c15)
        .wrapping_add(u64::from(column) + 1)
}

// Whether the rows are the same.
pub(crate) fn are_equal(a: &[BitRow], b: &[BitRow]) -> bool
    ensures { MatchBool result (a.now ≡ b.now) (a.now ≢ b.now) }
{
    if a.len() != b.len() {
        return false;
    }
    for k in 0..a.len() {
        if !a[k].equals(&b[k]) {
            return false;
        }
    }
    true
}
