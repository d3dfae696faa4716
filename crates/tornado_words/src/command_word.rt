ghost use Rattle.std.specs.Prelude.{◌≡◌};
ghost use Rattle.tornado_words.specs.Arguments.{command_word};

/// The first word of a command line.
#[derive(Clone, Copy, Debug, PartialEq, Eq)]
pub(crate) enum CommandWord {
    Core,
    Eval,
    Rows,
    Check,
    Verify,
    Repair,
    Compile,
    Run,
    Trial,
    Gen,
}

/// The command that a word names.
pub(crate) fn command_word(word: &str) -> Option<CommandWord>
    ensures { result ≡ command_word word.now }
{
    match word {
        "core" => Some(CommandWord::Core),
        "eval" => Some(CommandWord::Eval),
        "rows" => Some(CommandWord::Rows),
        "check" => Some(CommandWord::Check),
        "verify" => Some(CommandWord::Verify),
        "repair" => Some(CommandWord::Repair),
        "compile" => Some(CommandWord::Compile),
        "run" => Some(CommandWord::Run),
        "trial" => Some(CommandWord::Trial),
        "gen" => Some(CommandWord::Gen),
        _ => None,
    }
}
