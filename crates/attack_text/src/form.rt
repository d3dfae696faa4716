//! The forms of the lines: of each, the words that are not settled by it.
ghost use Rattle.std.specs.Prelude.{◌≡◌, ◌==◌, ◌&&◌, true, None, Some, map, MatchOption};
ghost use Rattle.std.specs.List.{list_all};
ghost use Rattle.attack_text.specs.Forms as forms;
ghost use Rattle.attack_text.specs.Parts.{IsListing};
ghost use Rattle.text_lines.specs.Numbers as numbers;

use attack_model::Side;
use column_lists::are_columns;
use text_lines::{Words, are_numbers, is_number, is_word, number_value};

/// Whether the first line is that of version 2.
pub(crate) fn version_form(mut words: Words<'_>) -> Option<bool>
    ensures { result ≡ forms.version_form words.entry }
{
    let attack = words.next_word()?;
    let Some(two) = words.next_word() else {
        return if is_word(attack, "attack") {
            Some(false)
        } else {
            None
        };
    };
    if words.next_word().is_some() || !is_word(attack, "attack") || !is_word(two, "2") {
        return None;
    }
    Some(true)
}

/// The two counts of the line `core`.
pub(crate) fn core_form<'a>(mut words: Words<'a>) -> Option<(&'a [u8], &'a [u8])>
    ensures { MatchOption result (forms.core_form words.entry ≡ None) (λ counts.
        (forms.core_form words.entry ≡ Some (record { columns = numbers.value_of counts.0.now; products = numbers.value_of counts.1.now }))
        × (numbers.is_number counts.0.now ≡ true) × (numbers.is_number counts.1.now ≡ true)) }
{
    let core = words.next_word()?;
    let columns = words.next_word()?;
    let c = words.next_word()?;
    let products = words.next_word()?;
    let p = words.next_word()?;
    if words.next_word().is_some()
        || !is_word(core, "core")
        || !is_word(columns, "columns")
        || !is_number(c)
        || !is_word(products, "products")
        || !is_number(p)
    {
        return None;
    }
    Some((c, p))
}

/// The columns of the line `leak`.
pub(crate) fn leak_form<'a>(mut words: Words<'a>) -> Option<Words<'a>>
    ensures { result ≡ forms.leak_form words.entry }
{
    let leak = words.next_word()?;
    if !is_word(leak, "leak") || !are_columns(words.copy()) {
        return None;
    }
    Some(words)
}

/// The count of the line `steps`.
pub(crate) fn steps_form<'a>(mut words: Words<'a>) -> Option<&'a [u8]>
    ensures { MatchOption result (forms.steps_form words.entry ≡ None) (λ count.
        (forms.steps_form words.entry ≡ Some (numbers.value_of count.now)) × (numbers.is_number count.now ≡ true)) }
{
    let steps = words.next_word()?;
    let count = words.next_word()?;
    if words.next_word().is_some() || !is_word(steps, "steps") || !is_number(count) {
        return None;
    }
    Some(count)
}

/// What the line of a step says.
#[derive(Drop)]
pub(crate) struct StepWords<'a> {
    pub(crate) product: &'a [u8],
    pub(crate) side: Side,
    pub(crate) uses: Words<'a>,
}

fn side_of(word: &[u8]) -> Option<Side>
    ensures { result ≡ forms.side_of word.now }
{
    if is_word(word, "left") {
        Some(Side::Left)
    } else if is_word(word, "right") {
        Some(Side::Right)
    } else {
        None
    }
}

// Whether a word is this number.
fn is_index(word: &[u8], index: u64) -> bool
    ensures { result ≡ (numbers.is_number word.now && numbers.value_of word.now == index) }
{
    is_number(word) && number_value(word) == Some(index)
}

/// The line of the step of this number.
pub(crate) fn step_form<'a>(index: u64, mut words: Words<'a>) -> Option<StepWords<'a>>
    ensures { MatchOption result (forms.step_form index words.entry ≡ None) (λ step.
        (forms.step_form index words.entry ≡ Some (record { product = numbers.value_of step.product.now; side = step.side; uses = map numbers.value_of step.uses }))
        × (numbers.is_number step.product.now ≡ true) × (list_all numbers.is_number step.uses ≡ true)) }
{
    let step = words.next_word()?;
    let number = words.next_word()?;
    let product = words.next_word()?;
    let p = words.next_word()?;
    let side = words.next_word()?;
    let uses = words.next_word()?;
    if !is_word(step, "step")
        || !is_index(number, index)
        || !is_word(product, "product")
        || !is_number(p)
        || !is_word(uses, "uses")
        || !are_numbers(words.copy())
    {
        return None;
    }
    let side = side_of(side)?;
    Some(StepWords {
        product: p,
        side,
        uses: words,
    })
}

/// The uses of the line `root`.
pub(crate) fn root_form<'a>(mut words: Words<'a>) -> Option<Words<'a>>
    ensures { MatchOption result (forms.root_form words.entry ≡ None) (λ uses.
        (forms.root_form words.entry ≡ Some (map numbers.value_of uses)) × (list_all numbers.is_number uses ≡ true)) }
{
    let root = words.next_word()?;
    let uses = words.next_word()?;
    if !is_word(root, "root") || !is_word(uses, "uses") || !are_numbers(words.copy()) {
        return None;
    }
    Some(words)
}

/// What the line `probes` says.
#[derive(Clone, Copy)]
pub(crate) enum ListingWord<'a> {
    Large,
    Count(&'a [u8]),
}

pub(crate) fn listing_form<'a>(mut words: Words<'a>) -> Option<ListingWord<'a>>
    ensures { MatchOption result (forms.listing_form words.entry ≡ None) (λ listing. IsListing listing (forms.listing_form words.entry)) }
{
    let probes = words.next_word()?;
    let count = words.next_word()?;
    if words.next_word().is_some() || !is_word(probes, "probes") {
        return None;
    }
    if is_word(count, "large") {
        Some(ListingWord::Large)
    } else if is_number(count) {
        Some(ListingWord::Count(count))
    } else {
        None
    }
}

/// What the line of a probe says: its product, and its left and right share.
#[derive(Clone, Copy)]
pub(crate) struct ProbeWords<'a> {
    pub(crate) product: &'a [u8],
    pub(crate) left_share: &'a [u8],
    pub(crate) right_share: &'a [u8],
}

pub(crate) fn probe_form<'a>(mut words: Words<'a>) -> Option<ProbeWords<'a>>
    ensures { MatchOption result (forms.probe_form words.entry ≡ None) (λ probe.
        (forms.probe_form words.entry ≡ Some (record {
          product = numbers.value_of probe.product.now;
          left_share = numbers.value_of probe.left_share.now;
          right_share = numbers.value_of probe.right_share.now;
        }))
        × (numbers.is_number probe.product.now ≡ true) × (numbers.is_number probe.left_share.now ≡ true) × (numbers.is_number probe.right_share.now ≡ true)) }
{
    let probe = words.next_word()?;
    let product = words.next_word()?;
    let left_share = words.next_word()?;
    let right_share = words.next_word()?;
    if words.next_word().is_some()
        || !is_word(probe, "probe")
        || !is_number(product)
        || !is_number(left_share)
        || !is_number(right_share)
    {
        return None;
    }
    Some(ProbeWords {
        product,
        left_share,
        right_share,
    })
}
