// Steps: the parts of a code, either ops or calls of routines.
ghost use Rattle.std.specs.Prelude.{◌≡◌, IfSome};
ghost use Rattle.cs_ir.specs.Flat.{further, window_of};

use crate::Op;
use cs_base::PerRate;

/// A call of a routine: its number, and where its local variables of each rate, its kept values and its units
/// begin, relative to the caller's.
#[derive(Clone, Copy)]
pub struct Call {
    pub routine: u32,
    pub locals: PerRate<u32>,
    pub kept: u32,
    pub unit: u32,
}

/// The next action: an op, whose jump goes to a later step of the same list; or the steps of a routine.
#[derive(Drop)]
pub enum Step {
    Do(Op),
    Invoke(Call),
}

impl Call {
    /// The combination of two calls: `call` is made by the routine that this call invokes. `None` if a sum
    /// has more than 32 bits.
    pub fn further(&self, call: &Call) -> Option<Call>
        ensures window { IfSome result (λ c. window_of c ≡ further (window_of self.now) (window_of call.now)) }
        ensures routine { IfSome result (λ c. c.routine ≡ call.now.routine) }
    {
        Some(Call {
            routine: call.routine,
            locals: PerRate {
                init: self.locals.init.checked_add(call.locals.init)?,
                control: self.locals.control.checked_add(call.locals.control)?,
                audio: self.locals.audio.checked_add(call.locals.audio)?,
            },
            kept: self.kept.checked_add(call.kept)?,
            unit: self.unit.checked_add(call.unit)?,
        })
    }
}
