//! The arguments of each command.
ghost use Rattle.std.specs.Prelude.{◌≡◌, IfOk};
ghost use Rattle.clap.specs.Words.{app_of, with_rule};
ghost use Rattle.tornado_words.specs.Arguments as spec;

use crate::command_word::CommandWord;
use clap::{Arg, ArgAction, Command};
use std::alloc::{AllocError, Global};

/// A command with all its arguments.
pub(crate) fn command_of<'a>(alloc: Global, word: CommandWord) -> Result<Command<'a>, AllocError>
    ensures { IfOk result (λ command. app_of command ≡ spec.app_of_word word) }
{
    let command = Command::new(alloc, "tornado").disable_help_flag(true);
    let command = with_positionals(alloc, command, word)?;
    with_options(alloc, command, word)
}

// A command with the words that it has to be given.
fn with_positionals<'a>(
    alloc: Global,
    command: Command<'a>,
    word: CommandWord,
) -> Result<Command<'a>, AllocError>
    ensures { IfOk result (λ new. app_of new ≡ spec.with_rules (app_of command.entry) (spec.positionals word)) }
{
    match word {
        CommandWord::Eval => with_two(alloc, command, "file", "values"),
        CommandWord::Verify => with_two(alloc, command, "file", "attack"),
        CommandWord::Run => with_two(alloc, command, "cfile", "values"),
        CommandWord::Gen => with_two(alloc, command, "seed", "size"),
        CommandWord::Trial => {
            let command = with_two(alloc, command, "file", "shares")?;
            with_positional(alloc, command, "seed")
        }
        _ => with_positional(alloc, command, "file"),
    }
}

fn with_options<'a>(
    alloc: Global,
    command: Command<'a>,
    word: CommandWord,
) -> Result<Command<'a>, AllocError>
    ensures { IfOk result (λ new. app_of new ≡ spec.with_rules (app_of command.entry) (spec.options word)) }
{
    match word {
        CommandWord::Run | CommandWord::Gen => Ok(command),
        CommandWord::Compile => {
            let command = with_basis_options(alloc, command)?;
            with_option(alloc, command, "word")
        }
        _ => with_basis_options(alloc, command),
    }
}

fn with_basis_options<'a>(alloc: Global, command: Command<'a>) -> Result<Command<'a>, AllocError>
    ensures { IfOk result (λ new. app_of new ≡ spec.with_rules (app_of command.entry) spec.basis_options) }
{
    let command = with_option(alloc, command, "width")?;
    let command = with_option(alloc, command, "entry")?;
    with_flag(alloc, command, "core")
}

fn with_two<'a>(
    alloc: Global,
    command: Command<'a>,
    first: &'a str,
    second: &'a str,
) -> Result<Command<'a>, AllocError>
    ensures { IfOk result (λ new. app_of new
        ≡ with_rule (with_rule (app_of command.entry) (spec.positional first.entry.now))
        (spec.positional second.entry.now)) }
{
    let command = with_positional(alloc, command, first)?;
    with_positional(alloc, command, second)
}

fn with_positional<'a>(
    alloc: Global,
    command: Command<'a>,
    id: &'a str,
) -> Result<Command<'a>, AllocError>
    ensures { IfOk result (λ new. app_of new ≡ with_rule (app_of command.entry) (spec.positional id.entry.now)) }
{
    command.arg(Arg::new(alloc, id).required(true))
}

fn with_option<'a>(
    alloc: Global,
    command: Command<'a>,
    id: &'a str,
) -> Result<Command<'a>, AllocError>
    ensures { IfOk result (λ new. app_of new ≡ with_rule (app_of command.entry) (spec.option id.entry.now)) }
{
    command.arg(Arg::new(alloc, id).long(id))
}

fn with_flag<'a>(
    alloc: Global,
    command: Command<'a>,
    id: &'a str,
) -> Result<Command<'a>, AllocError>
    ensures { IfOk result (λ new. app_of new ≡ with_rule (app_of command.entry) (spec.flag id.entry.now)) }
{
    let flag = Arg::new(alloc, id).long(id).action(ArgAction::SetTrue);
    command.arg(flag)
}
