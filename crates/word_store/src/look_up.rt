ghost use Rattle.std.specs.Prelude.{◌≡◌, ℕ, ◌-◌, ◌^◌, ◌<◌, ◌≤◌, List, map, length, slice_index, vec_len, IfOk};
ghost use Rattle.std.specs.Int.{bit_at};
ghost use Rattle.std.specs.List.{range_with_len};
ghost use Rattle.usuba_model.specs.Meaning.{number_of_bits, entry_at, word_of_bits, looked_up_word};

use std::alloc::{AllocError, Global};

// The index that the words pick at a bit position, with the bit of the first word as the most significant.
fn index_at(words: &[u64], position: u32) -> usize
    requires few { length words.now ≤ 8 }
    requires below { position < 64 }
    ensures index { result ≡ number_of_bits 0 (map (λ word. bit_at word position) words.now) }
    ensures within { result < 2 ^ length words.now }
{
    let mut index = 0;
    for word in words {
        index = index * 2 + ((*word >> position) & 1) as usize;
    }
    index
}

// The entry that the words pick at each bit position.
fn picked_entries(
    alloc: Global,
    bits: u32,
    entries: &[u64],
    words: &[u64],
) -> Result<Vec<u64>, AllocError>
    requires fits { bits ≤ 64 }
    requires few { length words.now ≤ 8 }
    requires whole { length entries.now ≡ 2 ^ length words.now }
    ensures { IfOk result (λ picked. picked.items ≡ map (entry_at entries.now words.now) (range_with_len 0 bits)) }
{
    let mut picked = Vec::with_capacity(alloc, bits as usize)?;
    for position in 0..bits {
        picked.push(entries[index_at(words, position)])?;
    }
    Ok(picked)
}

// The word of one bit of each entry, the first entry's as the least significant.
fn word_of_entries(entries: &[u64], place: u32) -> u64
    requires few { length entries.now ≤ 64 }
    requires below { place < 64 }
    ensures word { result
        ≡ word_of_bits (length entries.now) (λ position. bit_at (slice_index entries.now position) place) }
    ensures within { result < 2 ^ length entries.now }
{
    let mut word = 0;
    for (position, entry) in entries.iter().enumerate() {
        word += ((*entry >> place) & 1) << position;
    }
    word
}

/// The output words of a table of so many outputs, looked up at each bit position of its input words.
pub fn look_up_words(
    alloc: Global,
    bits: u32,
    outputs: u32,
    entries: &[u64],
    words: &[u64],
) -> Result<Vec<u64>, AllocError>
    requires fits { bits ≤ 64 }
    requires few_inputs { length words.now ≤ 8 }
    requires few_outputs { outputs ≤ 64 }
    requires whole { length entries.now ≡ 2 ^ length words.now }
    ensures words { IfOk result (λ made. made.items
        ≡ map (looked_up_word bits outputs entries.now words.now) (range_with_len 0 outputs)) }
{
    let picked = picked_entries(alloc, bits, entries, words)?;
    let mut made = Vec::with_capacity(alloc, outputs as usize)?;
    for j in 0..outputs {
        made.push(word_of_entries(picked.as_slice(), outputs - 1 - j))?;
    }
    Ok(made)
}
