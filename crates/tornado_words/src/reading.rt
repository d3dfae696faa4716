ghost use Rattle.std.specs.Prelude.{map, string_bytes};
ghost use Rattle.tornado_words.specs.Answers.{Answers};
ghost use Rattle.tornado_words.specs.Orders as spec;

use crate::command_word::{CommandWord, command_word};
use crate::order::{Order, WordFault};
use crate::orders::order_in;
use crate::parsing::matches_on;
use std::alloc::Global;

/// The order of the words, which are those after the program's name.
pub fn order_of(alloc: Global, words: &Vec<String>) -> Result<Order, WordFault>
    ensures { Answers (spec.order_of (map string_bytes words.now.items)) result }
{
    match words.first() {
        Some(word) => match command_word(word.as_str()) {
            Some(named) => order_on(alloc, named, words.as_slice()),
            None => Err(WordFault::Usage),
        },
        None => Err(WordFault::Usage),
    }
}

// The order of a command on the words, of which the first is its own.
fn order_on(alloc: Global, named: CommandWord, words: &[String]) -> Result<Order, WordFault>
    ensures { Answers (spec.order_on named (map string_bytes words.now)) result }
{
    let matches = matches_on(alloc, named, words)?;
    order_in(alloc, named, &matches)
}
