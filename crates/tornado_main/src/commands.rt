//! The commands, each in a file of its own.

ghost use Rattle.tornado_main.specs.Ending.{Ends};
ghost use Rattle.tornado_main.specs.Orders.{OrderEnds};
ghost use Rattle.tornado_words.specs.Ranges.{IsInRange};
ghost use Rattle.tornado_main.specs.Words.{files_of};

mod check;
mod compile;
mod evaluate;
mod generate;
mod print_core;
mod print_repaired;
mod print_rows;
mod print_shares;
mod print_trial;
mod verify;

use crate::refusal::Refusal;
use crate::status::Status;
use std::alloc::Global;
use tor_edge::{Files, Sink};
use tornado_words::Order;

/// Carries out an order: all of its work is done before the first byte of its answer is written.
pub fn carry_out<'a, F: Files, O: Sink>(
    alloc: Global,
    order: &'a Order,
    files: &mut F,
    out: &mut O,
) -> Result<Status, Refusal<'a>>
    requires { IsInRange order.now }
    ensures { Ends F.faults F.too_long F.refused F.fetched F.contents O.faults O.written (files_of order.now) (OrderEnds (F.contents files.old) order.now)
        files.old files.new out.old out.new result }
{
    match order {
        Order::Core { file, basis } => print_core::print_core(
            alloc,
            file.as_str(),
            basis,
            files,
            out,
        ),
        Order::Rows { file, basis } => print_rows::print_rows(
            alloc,
            file.as_str(),
            basis,
            files,
            out,
        ),
        Order::Check { file, basis } => check::check(alloc, file.as_str(), basis, files, out),
        Order::Verify {
            file,
            attack,
            basis,
        } => verify::verify(alloc, file.as_str(), attack.as_str(), basis, files, out),
        Order::Repair { file, basis } => {
            print_repaired::print_repaired(alloc, file.as_str(), basis, files, out)
        }
        Order::Eval {
            file,
            values,
            basis,
        } => evaluate::evaluate(alloc, file.as_str(), values.as_str(), basis, files, out),
        Order::Trial {
            file,
            shares,
            seed,
            basis,
        } => print_trial::print_trial(alloc, file.as_str(), *shares, *seed, basis, files, out),
        Order::Gen { seed, size } => generate::generate(alloc, *seed, *size, out),
        Order::Compile { file, word, basis } => compile::compile(
            alloc,
            file.as_str(),
            *word,
            basis,
            files,
            out,
        ),
        Order::Run { cfile, values } => {
            print_shares::print_shares(alloc, cfile.as_str(), values.as_str(), files, out)
        }
    }
}
