// Drafts: codes that are being built.
ghost use Rattle.std.specs.Prelude.{◌≡◌, ◌++◌, ℕ, ◌∷◌, [], length, true, IfOk, IfSome, IsNone, OnOk};
ghost use Rattle.cs_ir.specs.{Codes.is_unaimed, inner.Steps.aim_step, inner.Steps.aimed_step};
ghost use Rattle.cs_ir.specs.Drafts.{Aimed, Grew, IsAt, drafted, library_of};
ghost use Rattle.cs_ir.specs.Flat.{are_within, is_within, moved_ops, ops_at, window_of};
ghost use Rattle.cs_ir.specs.Routines.{AreRoutines, IsRoutineOf, library_in, ops_in};

use crate::{Act, Call, Op, Routine, Step};
use cs_base::OutOfMemory;
use std::alloc::Global;
use std::marker::Model;

/// A code that is being built, and the routines that it may invoke. Contracts see the steps of both, and
/// speak of the ops that they expand to (`drafted`).
#[derive(Drop)]
pub struct CodeDraft<'r> {
    routines: &'r [Routine],
    steps: Vec<Step>,
}

impl<'r> Model for CodeDraft<'r> {
    ghost use Rattle.std.specs.Prelude.{◌≡◌, length, map, true};
    ghost use Rattle.cs_ir.specs.{Drafts.Draft, Flat.are_within, Routines.AreRoutines, Routines.steps_of};

    ghost Value = { Draft };

    ghost view = { λ d. record { routines = map steps_of d.routines.now; steps = d.steps.items } };

    ghost invariant = { λ d. AreRoutines d.routines.now
        × (are_within (length d.steps.items) d.steps.items ≡ true) };
}

/// A mark: identifies an op of a draft. Contracts see the index of its step.
#[derive(Clone, Copy)]
pub struct Mark {
    step: usize,
}

impl Model for Mark {
    ghost use Rattle.std.specs.Prelude.{ℕ};

    ghost Value = { ℕ };

    ghost view = { λ m. m.step };

    ghost inverse = { λ n. record { step = n } };
}

impl<'r> CodeDraft<'r> {
    /// A draft without ops.
    pub fn new(alloc: Global, routines: &'r [Routine]) -> CodeDraft<'r>
        requires { AreRoutines routines.now }
        ensures ops { drafted result ≡ [] }
        ensures routines { library_of result ≡ library_in routines.now }
    {
        CodeDraft {
            routines,
            steps: Vec::new(alloc),
        }
    }

    /// Appends an op. A jump's target is 0 until `aim` sets it by the returned mark.
    pub fn push(&mut self, op: Op) -> Result<Mark, OutOfMemory>
        requires { is_unaimed op.act ≡ true }
        ensures more { IfOk result (λ _. Grew self.old self.new (op ∷ [])) }
        ensures mark { IfOk result (λ m. IsAt self.new m (length (drafted self.old))) }
    {
        let step = self.steps.len();
        self.push_step(Step::Do(op))?;
        Ok(Mark { step })
    }

    /// Appends the ops of a routine.
    pub fn invoke(&mut self, call: Call) -> Result<(), OutOfMemory>
        ensures { OnOk result (Grew self.old self.new
            (moved_ops (window_of call) (length (drafted self.old)) (ops_at (library_of self.old) call.routine))) }
    {
        if let Some(call) = called(self.routines, call)? {
            self.push_step(Step::Invoke(call))?;
        }
        Ok(())
    }

    fn push_step(&mut self, step: Step) -> Result<(), OutOfMemory>
        requires { is_within (length self.old.steps) step ≡ true }
        ensures more { OnOk result (self.new ≡ record self.old { steps = self.old.steps ++ step ∷ [] }) }
        ensures within { are_within (length self.old.steps) self.old.steps ≡ true }
    {
        self.steps.push(step)?;
        Ok(())
    }

    /// Sets the target of a marked jump to the end of the draft.
    pub fn aim(&mut self, mark: Mark)
        ensures { (place : ℕ) → IsAt self.old mark place → Aimed self.old self.new place }
    {
        let end = self.steps.len();
        aim_step(&mut self.steps, mark.step, end);
    }

    /// Finishes the draft and returns its code.
    pub fn end(self) -> Result<Routine, OutOfMemory>
        ensures ops { IfOk result (λ r. ops_in (library_of self.entry) r ≡ drafted self.entry) }
        ensures is { IfOk result (λ r. IsRoutineOf (library_of self.entry) r) }
    {
        Routine::of(self.routines, self.steps)
    }
}

// The call that is performed instead of `call`. It is `None` if the routine has no steps. If the routine
// only calls another routine, it is a call of that one. So routines never nest deeper than the ops and calls
// in their texts.
fn called(routines: &[Routine], call: Call) -> Result<Option<Call>, OutOfMemory>
    ensures some { IfOk result (λ found. IfSome found (λ c. (place : ℕ)
        → moved_ops (window_of c) place (ops_at (library_in routines.now) c.routine)
        ≡ moved_ops (window_of call) place (ops_at (library_in routines.now) call.routine))) }
    ensures none { IfOk result (λ found. IsNone found → ops_at (library_in routines.now) call.routine ≡ []) }
{
    let Some(routine) = routines.get(call.routine as usize) else {
        return Ok(None);
    };
    match routine.steps() {
        [] => Ok(None),
        [Step::Invoke(inner)] if inner.routine < call.routine => match call.further(inner) {
            Some(both) => Ok(Some(both)),
            None => Err(OutOfMemory),
        },
        _ => Ok(Some(call)),
    }
}

#[tactic(auto, using(crate::proofs::Drafting::step_set, crate::proofs::Drafting::step_none))]
fn aim_step(steps: &mut Vec<Step>, number: usize, to: usize)
    ensures { steps.new.items ≡ aim_step number to steps.old.items }
{
    if let Some(step) = steps.get_mut(number) {
        aim_one(step, to);
    }
}

fn aim_one(step: &mut Step, to: usize)
    ensures { step.new ≡ aimed_step to step.old }
{
    if let Step::Do(op) = step {
        op.act = match op.act {
            Act::Jump(_) => Act::Jump(to),
            Act::Unless(_) => Act::Unless(to),
            act => act,
        };
    }
}
