ghost use Rattle.std.specs.Prelude.{map, string_bytes, IfOk};
ghost use Rattle.tornado_words.specs.Answers.{Answers};
ghost use Rattle.tornado_words.specs.Orders.{order_of};
ghost use Rattle.tornado_words.specs.Ranges.{IsInRange};

use std::alloc::Global;
use tornado_words::{Order, WordFault, orders_are_in_range};

/// The order of the words, which are those after the program's name.
pub fn order_of(alloc: Global, words: &Vec<String>) -> Result<Order, WordFault>
    ensures order { Answers (order_of (map string_bytes words.now.items)) result }
    ensures range { IfOk result IsInRange }
{
    orders_are_in_range();
    tornado_words::order_of(alloc, words)
}
