ghost use Rattle.core_refresh.specs.RefreshedLaws.{RunsTheSame, RefreshedCoreSize, SetIsReadOff};

/// The plain run of a refreshed core is that of the core.
pub fn runs_the_same()
    ensures { RunsTheSame }
{}

/// How large a refreshed core is, and that it is a core.
pub fn refreshed_core_size()
    ensures { RefreshedCoreSize }
{}

/// Which products were refreshed is read off the core and its refreshed core.
pub fn set_is_read_off()
    ensures { SetIsReadOff }
{}
