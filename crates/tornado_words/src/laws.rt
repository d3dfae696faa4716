ghost use Rattle.tornado_words.specs.Laws.{OneOrder, OrdersAreInRange, WordsAreGiven, RefusedAlone, FileAlone, OptionAfter, OptionBefore, CoreText, CoreAlone};
ghost use Rattle.tornado_words.specs.Laws.{EmptyName, WordOfCompile, WordOfRepair, WordLeft, NoHelp};

/// Words have one order or none.
pub fn one_order()
    ensures { OneOrder }
{}

/// The numbers of an order are in their ranges.
pub fn orders_are_in_range()
    ensures { OrdersAreInRange }
{}

/// Words that `clap` takes have a value for each argument that has to be given.
pub fn words_are_given()
    ensures { WordsAreGiven }
{}

/// Words that `clap` takes are no order only where `--core` stands with `--width` or `--entry`, or where a number is none or is out of its
/// range.
pub fn refused_alone()
    ensures { RefusedAlone }
{}

/// Ordinary words have the orders that they are meant to have.
pub fn ordinary_words()
    ensures file_alone { FileAlone }
    ensures option_after { OptionAfter }
    ensures option_before { OptionBefore }
    ensures core_text { CoreText }
    ensures core_alone { CoreAlone }
    ensures empty_name { EmptyName }
    ensures word_of_compile { WordOfCompile }
    ensures word_of_repair { WordOfRepair }
    ensures word_left { WordLeft }
    ensures no_help { NoHelp }
{}
