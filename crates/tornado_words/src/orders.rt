//! The order of each command, by its matches.
ghost use Rattle.std.specs.Prelude.{◌≡◌};
ghost use Rattle.clap.specs.Words.{found_of, rows_of};
ghost use Rattle.tornado_words.specs.Answers.{Answers};
ghost use Rattle.tornado_words.specs.Orders as spec;
ghost use Rattle.tornado_words.specs.declared.command_word.CommandWord.TheVariants as command;

use crate::command_word::CommandWord;
use crate::order::{Basis, Order, WordFault};
use crate::values::{basis_in, name_in, number_in, word_size_in};
use clap::ArgMatches;
use std::alloc::Global;
use tor_edge::Name;

/// The order of a command.
pub(crate) fn order_in(
    alloc: Global,
    word: CommandWord,
    matches: &ArgMatches<'_>,
) -> Result<Order, WordFault>
    ensures { Answers (spec.order_in word (rows_of (found_of matches.now))) result }
{
    match word {
        CommandWord::Core => core(alloc, matches),
        CommandWord::Eval => eval(alloc, matches),
        CommandWord::Rows => rows(alloc, matches),
        CommandWord::Check => check(alloc, matches),
        CommandWord::Verify => verify(alloc, matches),
        CommandWord::Repair => repair(alloc, matches),
        CommandWord::Compile => compile(alloc, matches),
        CommandWord::Run => run(alloc, matches),
        CommandWord::Trial => trial(alloc, matches),
        CommandWord::Gen => gen_order(matches),
    }
}

fn file_and_basis(alloc: Global, matches: &ArgMatches<'_>) -> Result<(Name, Basis), WordFault>
    ensures { Answers (spec.file_and_basis (rows_of (found_of matches.now))) result }
{
    let file = name_in(alloc, matches, "file")?;
    let basis = basis_in(alloc, matches)?;
    Ok((file, basis))
}

fn core(alloc: Global, matches: &ArgMatches<'_>) -> Result<Order, WordFault>
    ensures { Answers (spec.order_in command.Core (rows_of (found_of matches.now))) result }
{
    let (file, basis) = file_and_basis(alloc, matches)?;
    Ok(Order::Core { file, basis })
}

fn eval(alloc: Global, matches: &ArgMatches<'_>) -> Result<Order, WordFault>
    ensures { Answers (spec.order_in command.Eval (rows_of (found_of matches.now))) result }
{
    let values = name_in(alloc, matches, "values")?;
    let (file, basis) = file_and_basis(alloc, matches)?;
    Ok(Order::Eval {
        file,
        values,
        basis,
    })
}

fn rows(alloc: Global, matches: &ArgMatches<'_>) -> Result<Order, WordFault>
    ensures { Answers (spec.order_in command.Rows (rows_of (found_of matches.now))) result }
{
    let (file, basis) = file_and_basis(alloc, matches)?;
    Ok(Order::Rows { file, basis })
}

fn check(alloc: Global, matches: &ArgMatches<'_>) -> Result<Order, WordFault>
    ensures { Answers (spec.order_in command.Check (rows_of (found_of matches.now))) result }
{
    let (file, basis) = file_and_basis(alloc, matches)?;
    Ok(Order::Check { file, basis })
}

fn verify(alloc: Global, matches: &ArgMatches<'_>) -> Result<Order, WordFault>
    ensures { Answers (spec.order_in command.Verify (rows_of (found_of matches.now))) result }
{
    let attack = name_in(alloc, matches, "attack")?;
    let (file, basis) = file_and_basis(alloc, matches)?;
    Ok(Order::Verify {
        file,
        attack,
        basis,
    })
}

fn repair(alloc: Global, matches: &ArgMatches<'_>) -> Result<Order, WordFault>
    ensures { Answers (spec.order_in command.Repair (rows_of (found_of matches.now))) result }
{
    let (file, basis) = file_and_basis(alloc, matches)?;
    Ok(Order::Repair { file, basis })
}

fn compile(alloc: Global, matches: &ArgMatches<'_>) -> Result<Order, WordFault>
    ensures { Answers (spec.order_in command.Compile (rows_of (found_of matches.now))) result }
{
    let word = word_size_in(matches)?;
    let (file, basis) = file_and_basis(alloc, matches)?;
    Ok(Order::Compile { file, word, basis })
}

fn run(alloc: Global, matches: &ArgMatches<'_>) -> Result<Order, WordFault>
    ensures { Answers (spec.order_in command.Run (rows_of (found_of matches.now))) result }
{
    let cfile = name_in(alloc, matches, "cfile")?;
    let values = name_in(alloc, matches, "values")?;
    Ok(Order::Run { cfile, values })
}

fn trial(alloc: Global, matches: &ArgMatches<'_>) -> Result<Order, WordFault>
    ensures { Answers (spec.order_in command.Trial (rows_of (found_of matches.now))) result }
{
    let (shares, seed) = shares_and_seed(matches)?;
    let (file, basis) = file_and_basis(alloc, matches)?;
    Ok(Order::Trial {
        file,
        shares,
        seed,
        basis,
    })
}

fn shares_and_seed(matches: &ArgMatches<'_>) -> Result<(u32, u64), WordFault>
    ensures { Answers (spec.shares_and_seed (rows_of (found_of matches.now))) result }
{
    let shares = number_in(1, 8, matches, "shares")?;
    let seed = number_in(0, u64::MAX, matches, "seed")?;
    Ok((shares as u32, seed))
}

fn gen_order(matches: &ArgMatches<'_>) -> Result<Order, WordFault>
    ensures { Answers (spec.order_in command.Gen (rows_of (found_of matches.now))) result }
{
    let seed = number_in(0, u64::MAX, matches, "seed")?;
    let size = number_in(1, 4096, matches, "size")?;
    Ok(Order::Gen {
        seed,
        size: size as u32,
    })
}
