//! What a line says, or its fault.
ghost use Rattle.std.specs.Prelude.{◌≡◌, ◌≤◌, true, None, Some, Ok, Err, map, length, if◌then◌else◌, IfOk, MatchResult};
ghost use Rattle.std.specs.List.{list_all};
ghost use Rattle.attack_model.specs.Derivations.{are_uses};
ghost use Rattle.attack_text.specs.Reading as reading;
ghost use Rattle.text_lines.specs.Numbers as numbers;

use crate::form::{
    ListingWord, StepWords, core_form, leak_form, listing_form, probe_form, root_form, step_form,
    steps_form, version_form,
};
use crate::read::CertFault;
use attack_model::{MAX_PROBES, Probe, Step};
use column_lists::read_row;
use gf2_span::BitRow;
use linear_view::View;
use std::alloc::{AllocError, Global};
use text_lines::{Words, number_below};
use tor_edge::List;

/// Whether the text is of version 2.
pub(crate) fn version_line(line: u64, words: Words<'_>) -> Result<bool, CertFault>
    ensures { result ≡ reading.version_line line words.entry }
{
    version_form(words).ok_or(CertFault::Syntax(line))
}

pub(crate) fn core_line(view: &View, line: u64, words: Words<'_>) -> Result<(), CertFault>
    ensures { MatchResult result
        (λ _. reading.core_line view.now line words.entry ≡ Ok (record { columns = length view.now.columns; products = length view.now.products }))
        (λ fault. reading.core_line view.now line words.entry ≡ Err fault) }
{
    let (columns, products) = core_form(words).ok_or(CertFault::Syntax(line))?;
    let (Some(columns), Some(products)) = (
        number_below(columns, 1 << 32),
        number_below(products, 1 << 32),
    ) else {
        return Err(CertFault::OutOfRange(line));
    };
    if columns != view.columns() || products != view.products() {
        return Err(CertFault::OtherCore(line));
    }
    Ok(())
}

pub(crate) fn leak_line(
    alloc: Global,
    view: &View,
    line: u64,
    words: Words<'_>,
) -> Result<BitRow, CertFault>
    ensures { reading.IsOrMemory result (reading.leak_line view.now line words.entry) }
{
    let columns = leak_form(words).ok_or(CertFault::Syntax(line))?;
    read_row(alloc, view, columns)?.ok_or(CertFault::OutOfRange(line))
}

pub(crate) fn steps_line(view: &View, line: u64, words: Words<'_>) -> Result<u32, CertFault>
    ensures { result ≡ reading.steps_line view.now line words.entry }
{
    // every view has few products
    let _columns = view.columns();
    let count = steps_form(words).ok_or(CertFault::Syntax(line))?;
    number_below(count, 2 * u64::from(view.products()) + 1).ok_or(CertFault::OutOfRange(line))
}

// The numbers that the words spell, where they rise and are below the number of a step.
fn uses_of(alloc: Global, step: u32, mut words: Words<'_>) -> Result<Option<List<u32>>, AllocError>
    requires { list_all numbers.is_number words ≡ true }
    ensures { IfOk result (λ uses. uses ≡ (if are_uses 0 step (map numbers.value_of words.entry) then Some (map numbers.value_of words.entry) else None)) }
{
    let mut uses = List::new(alloc);
    let mut least = 0;
    while let Some(word) = words.next_word() {
        let Some(value) = number_below(word, u64::from(step)) else {
            return Ok(None);
        };
        if value < least {
            return Ok(None);
        }
        uses.push(value)?;
        least = value + 1;
    }
    Ok(Some(uses))
}

pub(crate) fn step_line(
    alloc: Global,
    view: &View,
    index: u32,
    line: u64,
    words: Words<'_>,
) -> Result<Step, CertFault>
    ensures { reading.IsOrMemory result (reading.step_line view.now index line words.entry) }
{
    let step = step_form(u64::from(index), words).ok_or(CertFault::Syntax(line))?;
    let StepWords {
        product,
        side,
        uses,
    } = step;
    let product = number_below(product, u64::from(view.products())).ok_or(CertFault::OutOfRange(
        line,
    ))?;
    let uses = uses_of(alloc, index, uses)?.ok_or(CertFault::OutOfRange(line))?;
    Ok(Step {
        product,
        side,
        uses,
    })
}

pub(crate) fn root_line(
    alloc: Global,
    steps: u32,
    line: u64,
    words: Words<'_>,
) -> Result<List<u32>, CertFault>
    ensures { reading.IsOrMemory result (reading.root_line steps line words.entry) }
{
    let uses = root_form(words).ok_or(CertFault::Syntax(line))?;
    uses_of(alloc, steps, uses)?.ok_or(CertFault::OutOfRange(line))
}

/// How many probes are listed, if they are.
pub(crate) fn listing_line(line: u64, words: Words<'_>) -> Result<Option<u32>, CertFault>
    ensures { result ≡ reading.listing_line line words.entry }
{
    match listing_form(words).ok_or(CertFault::Syntax(line))? {
        ListingWord::Large => Ok(None),
        ListingWord::Count(count) => {
            let count = number_below(count, u64::from(MAX_PROBES) + 1).ok_or(CertFault::OutOfRange(
                line,
            ))?;
            Ok(Some(count))
        }
    }
}

pub(crate) fn probe_line(
    view: &View,
    probes: u32,
    line: u64,
    words: Words<'_>,
) -> Result<Probe, CertFault>
    requires { probes ≤ MAX_PROBES }
    ensures { result ≡ reading.probe_line view.now probes line words.entry }
{
    let probe = probe_form(words).ok_or(CertFault::Syntax(line))?;
    let product = number_below(probe.product, u64::from(view.products()));
    let left_share = number_below(probe.left_share, u64::from(probes) + 1);
    let right_share = number_below(probe.right_share, u64::from(probes) + 1);
    match (product, left_share, right_share) {
        (Some(product), Some(left_share), Some(right_share)) => Ok(Probe {
            product,
            left_share,
            right_share,
        }),
        _ => Err(CertFault::OutOfRange(line)),
    }
}
