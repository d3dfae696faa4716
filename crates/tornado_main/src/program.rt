ghost use Rattle.std.specs.Prelude.{map, string_bytes};
ghost use Rattle.tornado_main.specs.Completeness.{IsComplete};
ghost use Rattle.tornado_main.specs.Headline.{Headline};
ghost use Rattle.tornado_main.specs.Run.{IsRun};

use crate::commands::carry_out;
use crate::message::{Complaint, write_complaint};
use crate::refusal::Refusal;
use crate::status::Status;
use crate::words::order_of;
use c_meaning::one_file;
use core_text::written_is_read;
use masked_meaning::{
    lanes_are_runs, masked_code_computes_the_core, masked_code_computes_the_source,
    masked_lanes_compute_the_source,
};
use std::alloc::Global;
use tor_edge::{Files, Sink};
use tornado_words::WordFault;
use usuba_syntax::one_source;

/// Carries out the order of the words, which are those after the program's name.
///
/// The answer goes to `out`. A run that ends with a status of 2 or more tells why in one line, which goes to `err`;
/// a fault of `err` changes no status.
pub fn tornado<F: Files, O: Sink, E: Sink>(
    alloc: Global,
    words: &Vec<String>,
    files: &mut F,
    out: &mut O,
    err: &mut E,
) -> Status
    ensures run { IsRun F.faults F.too_long F.refused F.fetched O.faults O.written E.faults E.written F.contents
        (map string_bytes words.now.items) files.old files.new out.old out.new err.old err.new result }
    ensures headline { Headline (F.contents files.old) (map string_bytes words.now.items) (O.written out.old)
        (O.written out.new) result }
    ensures complete { IsComplete F.faults F.too_long F.contents O.faults O.written (map string_bytes words.now.items)
        files.old files.new out.old out.new result }
{
    one_source();
    written_is_read();
    one_file();
    masked_code_computes_the_core();
    masked_code_computes_the_source();
    masked_lanes_compute_the_source();
    lanes_are_runs();
    run_words(alloc, words, files, out, err)
}

fn run_words<F: Files, O: Sink, E: Sink>(
    alloc: Global,
    words: &Vec<String>,
    files: &mut F,
    out: &mut O,
    err: &mut E,
) -> Status
    ensures { IsRun F.faults F.too_long F.refused F.fetched O.faults O.written E.faults E.written F.contents
        (map string_bytes words.now.items) files.old files.new out.old out.new err.old err.new result }
{
    match order_of(alloc, words) {
        Ok(order) => match carry_out(alloc, &order, files, out) {
            Ok(status) => status,
            Err(refusal) => refusal.tell(err),
        },
        Err(WordFault::Usage) => {
            let _ = write_complaint(Complaint::BadCommandLine, err);
            Status::Usage
        }
        Err(WordFault::Memory(_)) => Refusal::Memory.tell(err),
    }
}
