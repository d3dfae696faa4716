ghost use Rattle.std.specs.Prelude.{◌≡◌, ◌≤◌, [], ◌∷◌, ◌++◌, None, IfOk, OnOk, OnErr};
ghost use Rattle.std.specs.Option.{unwrap_or};
ghost use Rattle.tor_edge.specs.Count.{Rose};
ghost use Rattle.tor_edge.specs.Fetch.{OnFailed, OnTooLong, OnOkOrMemory, refused_after};

use crate::{FetchFault, List, Name, Reason, Refusal};
use std::alloc::{AllocError, Global};

/// What an object that fetches files keeps of its fetches.
#[derive(Debug, Drop)]
pub(crate) struct Fetches {
    pub(crate) names: Option<List<Name>>,
    pub(crate) faults: u64,
    pub(crate) too_long: u64,
    pub(crate) refused: Option<Refusal>,
}

impl Fetches {
    pub(crate) fn new() -> Fetches
        ensures names { result.names ≡ None }
        ensures faults { result.faults ≡ 0 }
        ensures too_long { result.too_long ≡ 0 }
        ensures refused { result.refused ≡ None }
    {
        Fetches {
            names: None,
            faults: 0,
            too_long: 0,
            refused: None,
        }
    }

    /// Begins the fetch of this name: takes the memory for all that is kept of it, so that its end takes none.
    pub(crate) fn begin(&mut self, alloc: Global, name: &str) -> Result<Name, AllocError>
        ensures asked { IfOk result (λ asked. asked ≡ name.now) }
        ensures named { OnOk result (unwrap_or self.new.names [] ≡ unwrap_or self.old.names [] ++ name.now ∷ []) }
        ensures not_named { OnErr result (unwrap_or self.new.names [] ≡ unwrap_or self.old.names []) }
        ensures faults_stay { self.new.faults ≡ self.old.faults }
        ensures too_long_stays { self.new.too_long ≡ self.old.too_long }
        ensures refused_stays { self.new.refused ≡ self.old.refused }
    {
        let asked = Name::of(alloc, name)?;
        add_name(alloc, &mut self.names, Name::of(alloc, name)?)?;
        Ok(asked)
    }

    /// Notes the answer on the fetch of this name.
    pub(crate) fn end<T>(&mut self, name: Name, answer: &Result<T, FetchFault>)
        ensures names_stay { self.new.names ≡ self.old.names }
        ensures refused { self.new.refused ≡ refused_after self.old.refused name answer.now }
        ensures failed { OnFailed answer.now (Rose self.old.faults self.new.faults) }
        ensures found_too_long { OnTooLong answer.now (Rose self.old.too_long self.new.too_long) }
        ensures faults_never_fall { self.old.faults ≤ self.new.faults }
        ensures too_long_never_falls { self.old.too_long ≤ self.new.too_long }
        ensures faults_stay { OnOkOrMemory answer.now (self.new.faults ≡ self.old.faults) }
        ensures too_long_stays { OnOkOrMemory answer.now (self.new.too_long ≡ self.old.too_long) }
    {
        let reason = match answer {
            Ok(_) | Err(FetchFault::Memory(_)) => return,
            Err(FetchFault::Failed) => Reason::Failed,
            Err(FetchFault::TooLong) => Reason::TooLong,
        };
        match reason {
            Reason::Failed => self.faults = self.faults.saturating_add(1),
            Reason::TooLong => self.too_long = self.too_long.saturating_add(1),
        }
        self.refused = Some(Refusal { name, reason });
    }
}

/// Adds the name to the names, which are a list from the first of them on: an object that fetches is made without
/// an allocator.
pub(crate) fn add_name(
    alloc: Global,
    names: &mut Option<List<Name>>,
    name: Name,
) -> Result<(), AllocError>
    ensures named { OnOk result (unwrap_or names.new [] ≡ unwrap_or names.old [] ++ name ∷ []) }
    ensures not_named { OnErr result (unwrap_or names.new [] ≡ unwrap_or names.old []) }
{
    if let Some(names) = names {
        return names.push(name);
    }
    let mut first = List::new(alloc);
    first.push(name)?;
    *names = Some(first);
    Ok(())
}
