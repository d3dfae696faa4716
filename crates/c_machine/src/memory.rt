//! The memory of a run: rows of words.
ghost use Rattle.std.specs.Prelude.{◌≡◌, Some, None, IsFalse, if◌then◌else◌, vec_items};
ghost use Rattle.c_machine.specs.Machine as machine;

use tor_edge::List;

// Word `index` of a row, where there is such a row and it has so many words.
pub fn word_at(rows: &[List<u64>], row: Option<usize>, index: u64) -> Option<u64>
    ensures { result ≡ machine.word_at rows.now row index }
{
    let row = rows.get(row?)?;
    row.get(index as usize).copied()
}

// Writes word `index` of a row and answers true, where there is such a word.
pub fn write_word(rows: &mut Vec<List<u64>>, row: Option<usize>, index: u64, value: u64) -> bool
    ensures written { machine.with_word (vec_items rows.old) row index value
        ≡ if result then Some (vec_items rows.new) else None }
    ensures kept { IsFalse result → vec_items rows.new ≡ vec_items rows.old }
{
    let Some(row) = row else {
        return false;
    };
    if row >= rows.len() || index as usize >= rows[row].len() {
        return false;
    }
    rows[row].set(index as usize, value);
    true
}
