ghost use Rattle.std.specs.Prelude.{◌≡◌, ◌<◌, ◌+◌, ◌^◌, ℕ, [], List, length, slice_index_or, IfOk, IfSome};
ghost use Rattle.std.specs.Bool.{OnTrue};
ghost use Rattle.span_model.specs.Columns.{Columns, set_of, sets_of};
ghost use Rattle.tightprove.specs.Classes.{IsGathered};
ghost use Rattle.tightprove.specs.Private.Images.{image, AreImagesOf, AreImages};

use crate::classes::Classes;
use gf2_span::BitRow;
use std::alloc::{AllocError, Global};
use std::collections::HashMap;

/// The images of classes of at most one row: exclusive-ors of a word for each column of the row.
#[derive(Drop)]
pub(crate) struct Images {
    // by class: the image of its row, 0 where it has none
    pub(crate) by_class: Vec<u64>,
    // by image: the class whose row has it
    pub(crate) class_of: HashMap<u64, usize>,
}

// The word of a column, by the mixing steps of SplitMix64 (Steele, Lea and Flood, 2014). No answer depends on which it is.
fn column_word(c: u32) -> u64 {
    let mut word = (u64::from(c) + 1).wrapping_mul(0x9e37_79b9_7f4a_7c15);
    word = (word ^ (word >> 30)).wrapping_mul(0xbf58_476d_1ce4_e5b9);
    word = (word ^ (word >> 27)).wrapping_mul(0x94d0_49bb_1331_11eb);
    word ^ (word >> 31)
}

// The words of so many columns.
fn column_words(alloc: Global, columns: u32) -> Result<Vec<u64>, AllocError>
    ensures { IfOk result (λ words. length words.items ≡ columns) }
{
    let mut words = Vec::new(alloc);
    for c in 0..columns {
        words.push(column_word(c))?;
    }
    Ok(words)
}

// The exclusive-or of the words of the row's columns.
fn image_of(words: &[u64], row: &BitRow) -> u64
    requires count { length words.now ≡ length row.now }
    requires few { length words.now < 2 ^ 32 }
    ensures { result ≡ image words.now (set_of row.now) }
{
    let mut image = 0;
    let mut start = 0;
    while let Some(c) = row.first_from(start) {
        image ^= words[c as usize];
        start = c + 1;
    }
    image
}

impl Images {
    // Adds the image of the next class. The answer is whether it has at most one row, whose image no earlier class has.
    fn add(&mut self, words: &[u64], rows: &[BitRow]) -> Result<bool, AllocError>
        requires few { length words.now < 2 ^ 32 }
        requires wide { (k : ℕ) → k < length rows.now → length (slice_index_or rows.now k []) ≡ length words.now }
        ensures { IfOk result (λ added. OnTrue added ((all : ℕ → List (Columns ℕ)) (n : ℕ) → all n ≡ sets_of rows.now
            → AreImagesOf words.now all n self.old → AreImagesOf words.now all (n + 1) self.new)) }
    {
        match rows {
            [] => {
                self.by_class.push(0)?;
                Ok(true)
            }
            [row] => {
                let image = image_of(words, row);
                let i = self.by_class.len();
                self.by_class.push(image)?;
                Ok(self.class_of.insert(image, i)?.is_none())
            }
            _ => Ok(false),
        }
    }
}

/// The images of all classes, where each has at most one row, and no two rows have the same image.
pub(crate) fn images_of(alloc: Global, classes: &Classes) -> Result<Option<Images>, AllocError>
    requires { IsGathered classes.now }
    ensures { IfOk result (λ images. IfSome images (λ images. AreImages classes.now.list.items images)) }
{
    let words = column_words(alloc, classes.columns)?;
    let mut images = Images {
        by_class: Vec::new(alloc),
        class_of: HashMap::new(alloc),
    };
    for class in &classes.list {
        if !images.add(words.as_slice(), class.rows.as_slice())? {
            return Ok(None);
        }
    }
    Ok(Some(images))
}
