//! The values of arguments, by their names.
ghost use Rattle.std.specs.Prelude.{◌≡◌, Some, codes, option_map};
ghost use Rattle.clap.specs.Words.{first_of, found_of, rows_of};
ghost use Rattle.tornado_words.specs.Answers.{Answers};
ghost use Rattle.tornado_words.specs.Values as spec;
ghost use Rattle.tornado_words.specs.Numbers as numbers;

use crate::numbers::number_within;
use crate::order::{Basis, WordFault};
use clap::ArgMatches;
use std::alloc::Global;
use tor_edge::Name;

// The text of an argument.
fn text_in<'a>(matches: &ArgMatches<'a>, id: &str) -> Option<&'a str>
    ensures { option_map (λ text. text.now) result ≡ first_of id.now (rows_of (found_of matches.now)) }
{
    matches.get_str(id)
}

/// The text of an argument as a name.
pub(crate) fn name_in(alloc: Global, matches: &ArgMatches<'_>, id: &str) -> Result<Name, WordFault>
    ensures { Answers (first_of id.now (rows_of (found_of matches.now))) result }
{
    match text_in(matches, id) {
        Some(text) => Ok(Name::of(alloc, text)?),
        None => Err(WordFault::Usage),
    }
}

/// The value of an argument, a number from `least` to `most`.
pub(crate) fn number_in(
    least: u64,
    most: u64,
    matches: &ArgMatches<'_>,
    id: &str,
) -> Result<u64, WordFault>
    ensures { Answers (spec.number_in least most id.now (rows_of (found_of matches.now))) result }
{
    match text_in(matches, id) {
        Some(text) => match number_within(least, most, text) {
            Some(number) => Ok(number),
            None => Err(WordFault::Usage),
        },
        None => Err(WordFault::Usage),
    }
}

// Whether a flag is set.
fn is_set(matches: &ArgMatches<'_>, id: &str) -> bool
    ensures { result ≡ spec.is_set id.now (rows_of (found_of matches.now)) }
{
    match text_in(matches, id) {
        Some(text) => text == "true",
        None => false,
    }
}

/// What the file of a command is read as.
pub(crate) fn basis_in(alloc: Global, matches: &ArgMatches<'_>) -> Result<Basis, WordFault>
    ensures { Answers (spec.basis_in (rows_of (found_of matches.now))) result }
{
    if is_set(matches, "core") {
        return core_text_basis(matches);
    }
    let width = width_in(matches)?;
    let entry = entry_in(alloc, matches)?;
    Ok(Basis::Source { width, entry })
}

// Core text, which has neither a width nor an entry of its own.
fn core_text_basis(matches: &ArgMatches<'_>) -> Result<Basis, WordFault>
    ensures { Answers (spec.core_text_basis (rows_of (found_of matches.now))) result }
{
    if text_in(matches, "width").is_some() || text_in(matches, "entry").is_some() {
        return Err(WordFault::Usage);
    }
    Ok(Basis::CoreText)
}

fn width_in(matches: &ArgMatches<'_>) -> Result<Option<u32>, WordFault>
    ensures { Answers (spec.width_in (rows_of (found_of matches.now))) result }
{
    match text_in(matches, "width") {
        Some(text) => match number_within(1, 64, text) {
            Some(width) => Ok(Some(width as u32)),
            None => Err(WordFault::Usage),
        },
        None => Ok(None),
    }
}

fn entry_in(alloc: Global, matches: &ArgMatches<'_>) -> Result<Option<Name>, WordFault>
    ensures { Answers (Some (first_of (codes "entry") (rows_of (found_of matches.now)))) result }
{
    match text_in(matches, "entry") {
        Some(text) => Ok(Some(Name::of(alloc, text)?)),
        None => Ok(None),
    }
}

/// The bits of a register that `--word` gives, where it is there.
pub(crate) fn word_size_in(matches: &ArgMatches<'_>) -> Result<Option<u32>, WordFault>
    ensures { Answers (spec.word_size_in (rows_of (found_of matches.now))) result }
{
    match text_in(matches, "word") {
        Some(text) => match word_size(text) {
            Some(size) => Ok(Some(size)),
            None => Err(WordFault::Usage),
        },
        None => Ok(None),
    }
}

fn word_size(text: &str) -> Option<u32>
    ensures { result ≡ spec.word_size text.now }
{
    let size = number_within(8, 64, text)?;
    if size == 8 || size == 16 || size == 32 || size == 64 {
        return Some(size as u32);
    }
    None
}
