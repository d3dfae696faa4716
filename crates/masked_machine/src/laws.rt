ghost use Rattle.masked_machine.specs.MachineLaw.{MachineGivesMaskedRun, MachineFindsWordsShort};

/// The machine's answer for the masked form of a core is the core's masked run.
pub fn machine_gives_masked_run()
    ensures { MachineGivesMaskedRun }
{}

/// With fewer random words than the run draws, the machine finds them too few.
pub fn machine_finds_words_short()
    ensures { MachineFindsWordsShort }
{}
