ghost use Rattle.std.specs.Prelude.{◌≡◌, ℕ, ◌+◌, ◌*◌, ◌^◌, ◌<◌, ◌≤◌, Some, length, IfOk};
ghost use Rattle.usuba_code.specs.CodeLaw.{Each};
ghost use Rattle.usuba_model.specs.Rounds.{looked_up};
ghost use Rattle.usuba_model.specs.Walk.{weight};
ghost use Rattle.usuba_plan.specs.Fit.{TableFits};
ghost use Rattle.usuba_plan.specs.Store.{Store, Made, Gives, Keeps, meanings};

use std::alloc::{AllocError, Global};
use usuba_trees::{BitOp, ShiftKind};

/// What makes elements of some kind, terms or words, and holds what it made, each behind a handle.
pub trait Elements {
    type Handle: Copy;

    // The kind of elements.
    ghost V: { Type 0 };

    // What is held.
    ghost store: { Self → Store Self.Handle V };

    /// The element of a number.
    fn number(&mut self, value: u64) -> Result<Self::Handle, AllocError>
        requires room { 1 ≤ (store self.old).room }
        requires fits { value < 2 ^ (store self.old).width }
        ensures made { IfOk result (λ h. Made (store self.new) h ((store self.old).operators.number_of value)) }
        ensures keeps { Keeps 1 (store self.old) (store self.new) };

    fn complement(&mut self, a: Self::Handle) -> Result<Self::Handle, AllocError>
        requires room { 1 ≤ (store self.old).room }
        requires held { (store self.old).holds a }
        ensures made { IfOk result (λ h.
            Made (store self.new) h ((store self.old).operators.complement_of ((store self.old).meaning a))) }
        ensures keeps { Keeps 1 (store self.old) (store self.new) };

    fn combine(
        &mut self,
        op: BitOp,
        a: Self::Handle,
        b: Self::Handle,
    ) -> Result<Self::Handle, AllocError>
        requires room { weight op ≤ (store self.old).room }
        requires left { (store self.old).holds a }
        requires right { (store self.old).holds b }
        ensures made { IfOk result (λ h.
            Made (store self.new) h ((store self.old).operators.operation_of op ((store self.old).meaning a) ((store self.old).meaning b))) }
        ensures keeps { Keeps (weight op) (store self.old) (store self.new) };

    fn shift(
        &mut self,
        kind: ShiftKind,
        amount: u32,
        a: Self::Handle,
    ) -> Result<Self::Handle, AllocError>
        requires room { 1 ≤ (store self.old).room }
        requires below { amount < (store self.old).width }
        requires held { (store self.old).holds a }
        ensures made { IfOk result (λ h.
            Made (store self.new) h ((store self.old).operators.shift_of kind amount ((store self.old).meaning a))) }
        ensures keeps { Keeps 1 (store self.old) (store self.new) };

    fn refresh(&mut self, number: u32, a: Self::Handle) -> Result<Self::Handle, AllocError>
        requires room { 1 ≤ (store self.old).room }
        requires below { number < 65536 }
        requires held { (store self.old).holds a }
        ensures made { IfOk result (λ h.
            Made (store self.new) h ((store self.old).operators.refresh_of number ((store self.old).meaning a))) }
        ensures keeps { Keeps 1 (store self.old) (store self.new) };

    /// The output elements of a table, of its input elements.
    fn look_up(
        &mut self,
        alloc: Global,
        outputs: u32,
        entries: &[u64],
        inputs: &[Self::Handle],
    ) -> Result<Vec<Self::Handle>, AllocError>
        requires room { 2 ^ length inputs.now * (outputs + 1) ≤ (store self.old).room }
        requires fits { TableFits (length inputs.now) outputs entries.now }
        requires held { Each (store self.old).holds inputs.now }
        ensures made { IfOk result (λ handles.
            Gives (store self.new) handles.items
            (Some (looked_up (store self.old).operators outputs entries.now (meanings (store self.old) inputs.now)))) }
        ensures keeps { Keeps (2 ^ length inputs.now * (outputs + 1)) (store self.old) (store self.new) };
}
