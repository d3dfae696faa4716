ghost use Rattle.std.specs.Prelude.{◌≡◌, ℕ, ◌+◌, ◌-◌, ◌<◌, ◌≤◌, ◌^◌, ◌∷◌, [], All, List, length, map, IfOk, IfSome, OnErr};
ghost use Rattle.usuba0.specs.Builder.{Holds, Names, Grows, IsOnceEach, term_of, input_terms};
ghost use Rattle.usuba0.specs.Circuit.{IsSmall, HasFewColumns, weight, columns};
ghost use Rattle.usuba0.specs.CoreOfTerms.{core_of_terms};
ghost use Rattle.usuba0.specs.State.Heads.{IsHead, IsWidth, term_of_head};
ghost use Rattle.usuba0.specs.Term.{Term, Input, Const, constant, xor_term, and_term, not_term, or_term, or_makes, shift_term, refresh_term};

use crate::circuit::{Core, Reg};
use crate::finish::{CloseFault, Walk, close};
use crate::limit::{MAX_COLUMNS, MAX_TERMS, MAX_WEIGHT, REFRESH_NUMBERS};
use crate::words::{all_ones, rotate_left, shift_left, shift_right};
use indexmap::IndexSet;
use std::alloc::{AllocError, Global};
use std::marker::Model;

/// Which way a shift or a rotation goes.
#[derive(Debug, Clone, Copy, PartialEq, Eq)]
pub enum Turn {
    Left,
    Right,
    RotLeft,
    RotRight,
}

// A term that is no input, as its operation over the numbers of its operands.
#[derive(Debug, Clone, Copy, PartialEq, Eq, Hash)]
pub enum Head {
    Const(u64),
    Xor(Reg, Reg),
    Not(Reg),
    Mask(u64, Reg),
    And(Reg, Reg),
    Shl(u32, Reg),
    Shr(u32, Reg),
    Rotl(u32, Reg),
    Refresh(u32, Reg),
}

impl Head {
    // The number of a constant; none for another operation.
    fn constant(&self) -> Option<u64>
        ensures { (ts : List Term) → result ≡ constant (term_of_head ts self.now) }
    {
        match *self {
            Head::Const(c) => Some(c),
            _ => None,
        }
    }
}

/// The terms of a circuit that is being built, each kept once.
#[derive(Drop)]
pub struct CoreBuilder {
    width: u32,
    inputs: u32,
    heads: IndexSet<Head>,
}

impl Model for CoreBuilder {
    ghost use Rattle.usuba0.specs.Builder.{Held, held_code, input_terms};
    ghost use Rattle.usuba0.specs.State.Heads.{terms_of_heads, IsBuilder};

    ghost Value = { Held };

    ghost coded = { held_code };

    ghost view = { λ b. record { width = b.width; inputs = b.inputs; terms = terms_of_heads (input_terms b.inputs) b.heads.keys } };

    ghost invariant = { λ b. IsBuilder b.width b.inputs b.heads.keys };
}

impl CoreBuilder {
    /// A builder that holds its inputs alone: input k has the number k.
    pub fn new(alloc: Global, width: u32, inputs: u32) -> Result<CoreBuilder, AllocError>
        requires some_width { 0 < width }
        requires width_fits { width ≤ 64 }
        requires some_input { 0 < inputs }
        requires few_inputs { inputs < MAX_TERMS }
        ensures { IfOk result (λ b. b ≡ record { width = width; inputs = inputs; terms = input_terms inputs }) }
    {
        Ok(CoreBuilder {
            width,
            inputs,
            heads: IndexSet::new(alloc),
        })
    }

    /// How many terms are held, inputs included.
    pub fn terms(&self) -> u32
        ensures { result ≡ length self.now.terms }
    {
        self.inputs + self.heads.len() as u32
    }

    /// What holds of every builder.
    pub fn laws(&self)
        ensures width { IsWidth self.now.width }
        ensures some_input { 0 < self.now.inputs }
        ensures inputs { self.now.inputs ≤ length self.now.terms }
        ensures few { length self.now.terms ≤ MAX_TERMS }
        ensures once { IsOnceEach self.now.terms }
    {
        let _inputs = &self.inputs;
    }

    /// The register of input `k`.
    pub fn input(&self, k: u32) -> Reg
        requires { k < self.now.inputs }
        ensures number { result.0 ≡ k }
        ensures term { Names self.now result (Input k) }
    {
        let _inputs = &self.inputs;
        Reg(k)
    }

    /// The constant `value`.
    pub fn constant(&mut self, value: u64) -> Result<Reg, AllocError>
        requires room { length self.old.terms < MAX_TERMS }
        requires fits { value < 2 ^ self.old.width }
        ensures term { IfOk result (λ r. Names self.new r (Const value)) }
        ensures grows { Grows (Const value ∷ []) self.old self.new }
        ensures err { OnErr result (self.new ≡ self.old) }
    {
        self.keep(Head::Const(value))
    }

    /// `a ^ b`.
    pub fn xor(&mut self, a: Reg, b: Reg) -> Result<Reg, AllocError>
        requires room { length self.old.terms < MAX_TERMS }
        requires left { Holds self.old a }
        requires right { Holds self.old b }
        ensures term { IfOk result (λ r. Names self.new r (xor_term (term_of self.old a) (term_of self.old b))) }
        ensures grows { Grows (xor_term (term_of self.old a) (term_of self.old b) ∷ []) self.old self.new }
        ensures err { OnErr result (self.new ≡ self.old) }
    {
        match (self.constant_of(a), self.constant_of(b)) {
            (Some(c), Some(d)) => self.keep(Head::Const(c ^ d)),
            _ => self.keep(Head::Xor(a, b)),
        }
    }

    /// `a & b`; a mask, where one of them is a constant.
    pub fn and(&mut self, a: Reg, b: Reg) -> Result<Reg, AllocError>
        requires room { length self.old.terms < MAX_TERMS }
        requires left { Holds self.old a }
        requires right { Holds self.old b }
        ensures term { IfOk result (λ r. Names self.new r (and_term (term_of self.old a) (term_of self.old b))) }
        ensures grows { Grows (and_term (term_of self.old a) (term_of self.old b) ∷ []) self.old self.new }
        ensures err { OnErr result (self.new ≡ self.old) }
    {
        match (self.constant_of(a), self.constant_of(b)) {
            (Some(c), Some(d)) => self.keep(Head::Const(c & d)),
            (Some(c), None) => self.keep(Head::Mask(c, b)),
            (None, Some(d)) => self.keep(Head::Mask(d, a)),
            (None, None) => self.keep(Head::And(a, b)),
        }
    }

    /// `a | b`, which is `~(~a & ~b)` and so can add four terms.
    pub fn or(&mut self, a: Reg, b: Reg) -> Result<Reg, AllocError>
        requires room { length self.old.terms < MAX_TERMS - 3 }
        requires left { Holds self.old a }
        requires right { Holds self.old b }
        ensures term { IfOk result (λ r. Names self.new r (or_term self.old.width (term_of self.old a) (term_of self.old b))) }
        ensures grows { Grows (or_makes self.old.width (term_of self.old a) (term_of self.old b)) self.old self.new }
    {
        let not_a = self.not(a)?;
        let not_b = self.not(b)?;
        let neither = self.and(not_a, not_b)?;
        self.not(neither)
    }

    /// `~a`.
    pub fn not(&mut self, a: Reg) -> Result<Reg, AllocError>
        requires room { length self.old.terms < MAX_TERMS }
        requires operand { Holds self.old a }
        ensures term { IfOk result (λ r. Names self.new r (not_term self.old.width (term_of self.old a))) }
        ensures grows { Grows (not_term self.old.width (term_of self.old a) ∷ []) self.old self.new }
        ensures err { OnErr result (self.new ≡ self.old) }
    {
        match self.constant_of(a) {
            Some(c) => self.keep(Head::Const(c ^ all_ones(self.width))),
            None => self.keep(Head::Not(a)),
        }
    }

    /// `a` shifted or rotated by `k` bits. A rotation to the right is kept as one to the left.
    pub fn shift(&mut self, kind: Turn, k: u32, a: Reg) -> Result<Reg, AllocError>
        requires room { length self.old.terms < MAX_TERMS }
        requires below { k < self.old.width }
        requires operand { Holds self.old a }
        ensures term { IfOk result (λ r. Names self.new r (shift_term self.old.width kind k (term_of self.old a))) }
        ensures grows { Grows (shift_term self.old.width kind k (term_of self.old a) ∷ []) self.old self.new }
        ensures err { OnErr result (self.new ≡ self.old) }
    {
        let width = self.width;
        if k == 0 {
            return Ok(a);
        }
        match (kind, self.constant_of(a)) {
            (Turn::Left, Some(c)) => self.keep(Head::Const(shift_left(width, k, c))),
            (Turn::Left, None) => self.keep(Head::Shl(k, a)),
            (Turn::Right, Some(c)) => self.keep(Head::Const(shift_right(k, c))),
            (Turn::Right, None) => self.keep(Head::Shr(k, a)),
            (Turn::RotLeft, Some(c)) => self.keep(Head::Const(rotate_left(width, k, c))),
            (Turn::RotLeft, None) => self.keep(Head::Rotl(k, a)),
            (Turn::RotRight, Some(c)) => self.keep(Head::Const(rotate_left(width, width - k, c))),
            (Turn::RotRight, None) => self.keep(Head::Rotl(width - k, a)),
        }
    }

    /// `refresh(a, k)`: refreshes with different `k` are different terms.
    pub fn refresh(&mut self, k: u32, a: Reg) -> Result<Reg, AllocError>
        requires room { length self.old.terms < MAX_TERMS }
        requires number { k < REFRESH_NUMBERS }
        requires operand { Holds self.old a }
        ensures term { IfOk result (λ r. Names self.new r (refresh_term k (term_of self.old a))) }
        ensures grows { Grows (refresh_term k (term_of self.old a) ∷ []) self.old self.new }
        ensures err { OnErr result (self.new ≡ self.old) }
    {
        self.keep(Head::Refresh(k, a))
    }

    // The number of a constant; none for another term.
    fn constant_of(&self, r: Reg) -> Option<u64>
        requires { Holds self.now r }
        ensures value { result ≡ constant (term_of self.now r) }
        ensures fits { IfSome result (λ c. c < 2 ^ self.now.width) }
        ensures width { IsWidth self.now.width }
    {
        if r.0 < self.inputs {
            return None;
        }
        match self.heads.get_index((r.0 - self.inputs) as usize) {
            Some(head) => head.constant(),
            None => None,
        }
    }

    // The register of this operation over terms that are held; the term is added if it is new.
    fn keep(&mut self, head: Head) -> Result<Reg, AllocError>
        requires room { length self.old.terms < MAX_TERMS }
        requires head { IsHead self.old.width (length self.old.terms) head }
        ensures term { IfOk result (λ r. Names self.new r (term_of_head self.old.terms head)) }
        ensures grows { Grows (term_of_head self.old.terms head ∷ []) self.old self.new }
        ensures err { OnErr result (self.new ≡ self.old) }
    {
        let (at, _) = self.heads.insert_full(head)?;
        Ok(Reg(self.inputs + at as u32))
    }

    /// The circuit of these outputs: their distinct subterms in postorder. `CoreTooLarge` is tested before
    /// `ColumnsTooMany`; `Core::fits` has the two limits.
    pub fn finish(self, alloc: Global, outputs: &[Reg]) -> Result<Core, CloseFault>
        requires some { 0 < length outputs.now }
        requires few { length outputs.now ≤ MAX_TERMS }
        requires held { All (Holds self) outputs.now }
        ensures core { IfOk result (λ core. core ≡ core_of_terms self.width self.inputs (map (term_of self) outputs.now)) }
        ensures within { IfOk result (λ core. IsSmall core × HasFewColumns core) }
        ensures too_large { result ≡ Err CloseFault.CoreTooLarge
            → MAX_WEIGHT < weight (core_of_terms self.width self.inputs (map (term_of self) outputs.now)) }
        ensures too_many { let core = core_of_terms self.width self.inputs (map (term_of self) outputs.now) in
            result ≡ Err CloseFault.ColumnsTooMany → IsSmall core × (MAX_COLUMNS < columns core) }
    {
        let walk = Walk::of(
            alloc,
            self.width,
            self.inputs,
            self.heads.as_slice(),
            outputs,
        )?;
        close(
            alloc,
            self.width,
            self.inputs,
            self.heads.as_slice(),
            outputs,
            &walk,
        )
    }
}
