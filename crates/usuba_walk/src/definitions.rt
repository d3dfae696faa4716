ghost use Rattle.std.specs.Prelude.{◌≡◌, [], ◌∷◌, OnOk};
ghost use Rattle.usuba_model.specs.Numbers.{callee_number};
ghost use Rattle.usuba_model.specs.Walk.{signature_of};
ghost use Rattle.usuba_walk.specs.Signatures.{HasOwnName, before_latest};

use std::alloc::{AllocError, Global};
use std::collections::HashMap;
use std::marker::Model;

/// What a call needs of the definition that it names.
#[derive(Clone, Copy, Drop)]
pub struct Callee {
    /// The definition's place in the file, from 0.
    pub number: u32,
    /// How many elements it takes.
    pub inputs: u32,
    /// How many elements it gives.
    pub outputs: u32,
}

// A definition as calls see it.
#[derive(Clone, Copy, Drop)]
pub struct Known<'a> {
    pub name: &'a str,
    pub inputs: u32,
    pub outputs: u32,
}

/// The earlier definitions of a file. Where a name repeats, the latest definition counts.
#[derive(Drop)]
pub struct Definitions<'a> {
    known: Vec<Known<'a>>,
    places: HashMap<&'a str, u32>,
}

impl<'a> Model for Definitions<'a> {
    ghost use Rattle.std.specs.Prelude.{◌≡◌, ℕ, List, bytes_eq};
    ghost use Rattle.std.specs.HashMap.{get_by};
    ghost use Rattle.usuba_model.specs.Walk.{Signature};
    ghost use Rattle.usuba_walk.specs.Signatures.{latest_first, place_of};

    ghost Value = { List Signature };

    ghost view = { λ d. latest_first d.known.items };

    ghost invariant = { λ d. (name : List ℕ) → get_by (λ key. bytes_eq name key.now) d.places ≡ place_of (latest_first d.known.items) name };
}

impl<'a> Definitions<'a> {
    pub fn new(alloc: Global) -> Definitions<'a>
        ensures { result ≡ [] }
    {
        Definitions {
            known: Vec::new(alloc),
            places: HashMap::new(alloc),
        }
    }

    /// Adds the next definition of the file.
    pub fn add(&mut self, name: &'a str, inputs: u32, outputs: u32) -> Result<(), AllocError>
        ensures { OnOk result (self.new ≡ record { name = name.now; inputs = inputs; outputs = outputs } ∷ self.old) }
    {
        let place = u32::try_from(self.known.len()).map_err(|_| AllocError)?;
        self.known.push(Known {
            name,
            inputs,
            outputs,
        })?;
        match self.places.insert(name, place) {
            Ok(_) => Ok(()),
            Err(_) => {
                let _ = self.known.pop();
                Err(AllocError)
            }
        }
    }

    /// Forgets the latest definition, whose name is that of no earlier one.
    pub fn forget(&mut self)
        requires { HasOwnName self.old }
        ensures { self.new ≡ before_latest self.old }
    {
        if let Some(latest) = self.known.pop() {
            let _ = self.places.remove(latest.name);
        }
    }

    /// The definition of a name; one that takes and gives nothing where there is none.
    pub fn find(&self, name: &str) -> Callee
        ensures number { result.number ≡ callee_number self.now name.now }
        ensures inputs { result.inputs ≡ (signature_of self.now name.now).inputs }
        ensures outputs { result.outputs ≡ (signature_of self.now name.now).outputs }
    {
        match self.places.get(name).copied() {
            Some(number) => {
                let known = self.known[number as usize];
                Callee {
                    number,
                    inputs: known.inputs,
                    outputs: known.outputs,
                }
            }
            None => Callee {
                number: 0,
                inputs: 0,
                outputs: 0,
            },
        }
    }
}
