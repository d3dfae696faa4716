ghost use Rattle.std.specs.Prelude.{◌≡◌, ◌≢◌, map, string_bytes};
ghost use Rattle.clap.specs.Words.{kind_of, rows_of, found_of};
ghost use Rattle.clap.specs.declared.error.kind.ErrorKind.TheVariants.{OutOfMemory};
ghost use Rattle.tornado_words.specs.Answers.{AnswersBy};
ghost use Rattle.tornado_words.specs.Arguments.{matches_on};

use crate::arguments::command_of;
use crate::command_word::CommandWord;
use crate::order::WordFault;
use clap::error::ErrorKind;
use clap::{ArgMatches, Error};
use std::alloc::{AllocError, Global};

/// The matches of a command on the words, of which the first is its own.
pub(crate) fn matches_on<'a>(
    alloc: Global,
    word: CommandWord,
    words: &'a [String],
) -> Result<ArgMatches<'a>, WordFault>
    ensures { AnswersBy (λ matches. rows_of (found_of matches))
        (matches_on word (map string_bytes words.entry.now)) result }
{
    let command = command_of(alloc, word)?;
    match command.try_get_matches_from(words) {
        Ok(matches) => Ok(matches),
        Err(error) => Err(fault_of(&error)),
    }
}

// The fault that an error of `clap` is.
fn fault_of(error: &Error) -> WordFault
    ensures { result ≡ WordFault.Usage → kind_of error.now ≢ OutOfMemory }
{
    match error.kind() {
        ErrorKind::OutOfMemory => WordFault::Memory(AllocError),
        _ => WordFault::Usage,
    }
}
