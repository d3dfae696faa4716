//! The names in scope.
ghost use Rattle.std.specs.Prelude.{◌≡◌, [], ◌-◌, OnOk, length, take};
ghost use Rattle.c_names.specs.Names.{with_name};
ghost use Rattle.c_names.specs.Scope as spec;
ghost use Rattle.c_names.specs.State.Scopes.{found_at, stands_at};

use std::alloc::{AllocError, Global};
use std::collections::HashMap;
use std::marker::Model;
use tor_edge::Name;

/// What a name in scope is.
#[derive(Clone, Copy, Drop)]
pub enum Role {
    Array,
    /// A parameter or a declared `uint64_t`.
    Word,
    /// The counter of a loop.
    Counter,
}

/// A name in scope.
#[derive(Clone, Copy, Drop)]
pub(crate) struct Known<'a> {
    pub(crate) name: &'a str,
    pub(crate) role: Role,
}

/// The first name in scope of one spelling: how many stand before it, and what it is.
#[derive(Clone, Copy, Drop)]
pub(crate) struct First {
    pub(crate) place: usize,
    pub(crate) role: Role,
}

/// The names in scope, the latest last.
#[derive(Drop)]
pub(crate) struct Scope<'a> {
    known: Vec<Known<'a>>,
    first: HashMap<&'a str, First>,
}

impl<'a> Model for Scope<'a> {
    ghost use Rattle.std.specs.Prelude.{◌≡◌, ℕ, List};
    ghost use Rattle.c_names.specs.Scope.{InScope};
    ghost use Rattle.c_names.specs.State.Scopes.{found_at, found_from, scope_of};

    ghost Value = { List InScope };

    ghost view = { λ s. scope_of s.known.items };

    ghost invariant = { λ s. (name : List ℕ) → found_at s.first name ≡ found_from 0 (scope_of s.known.items) name };
}

// Whether the first name of a spelling has so many before it.
fn is_first(first: &HashMap<&str, First>, name: &str, place: usize) -> bool
    ensures { result ≡ stands_at place (found_at first.now name.now) }
{
    match first.get(name).copied() {
        Some(found) => found.place == place,
        None => false,
    }
}

impl<'a> Scope<'a> {
    pub(crate) fn new(alloc: Global) -> Scope<'a>
        ensures { result ≡ [] }
    {
        Scope {
            known: Vec::new(alloc),
            first: HashMap::new(alloc),
        }
    }

    /// A name comes into scope.
    pub(crate) fn add(&mut self, name: &'a Name, role: Role) -> Result<(), AllocError>
        ensures { OnOk result (self.new ≡ with_name self.old name.now role) }
    {
        let name = name.as_str();
        let place = self.known.len();
        self.known.push(Known { name, role })?;
        if self.first.contains_key(name) {
            return Ok(());
        }
        match self.first.insert(name, First { place, role }) {
            Ok(_) => Ok(()),
            Err(_) => {
                let _ = self.known.pop();
                Err(AllocError)
            }
        }
    }

    pub(crate) fn len(&self) -> usize
        ensures { result ≡ length self.now }
    {
        self.known.len()
    }

    // The latest name goes out of scope.
    fn forget_latest(&mut self)
        ensures { self.new ≡ take (length self.old - 1) self.old }
    {
        if let Some(latest) = self.known.pop() {
            if is_first(&self.first, latest.name, self.known.len()) {
                let _ = self.first.remove(latest.name);
            }
        }
    }

    /// All but the first `count` names go out of scope.
    pub(crate) fn truncate(&mut self, count: usize)
        ensures { self.new ≡ take count self.old }
    {
        while count < self.known.len() {
            self.forget_latest();
        }
    }

    // What a name is, where it is in scope.
    fn role_of(&self, name: &Name) -> Option<Role>
        ensures { result ≡ spec.role_of self.now name.now }
    {
        match self.first.get(name.as_str()).copied() {
            Some(found) => Some(found.role),
            None => None,
        }
    }

    pub(crate) fn is_array(&self, name: &Name) -> bool
        ensures { result ≡ spec.is_array (spec.role_of self.now name.now) }
    {
        matches!(self.role_of(name), Some(Role::Array))
    }

    pub(crate) fn is_word(&self, name: &Name) -> bool
        ensures { result ≡ spec.is_word (spec.role_of self.now name.now) }
    {
        matches!(self.role_of(name), Some(Role::Word))
    }

    pub(crate) fn is_counter(&self, name: &Name) -> bool
        ensures { result ≡ spec.is_counter (spec.role_of self.now name.now) }
    {
        matches!(self.role_of(name), Some(Role::Counter))
    }

    /// Whether a name is not in scope.
    pub(crate) fn is_new(&self, name: &Name) -> bool
        ensures { result ≡ spec.is_new (spec.role_of self.now name.now) }
    {
        self.role_of(name).is_none()
    }
}
