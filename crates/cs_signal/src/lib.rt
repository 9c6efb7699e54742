//! The units of lines, delays, filters and holds, and the traits that units of all opcodes share.
//!
//! Its one contract: a unit's `start` is its opcode's `.._start` in specs/, its `tick` is one `.._step`, and
//! its `render` is a run of such steps (`Generator`). A law of cs_ugen states for every opcode that these
//! steps return the opcode's formula over all inputs so far (`units_meet_their_formulas`, proved with the
//! lemmas of proofs/Formulas). The state that a unit stores, and the way a block of frames is computed faster
//! than step by step, may be changed without anyone above noticing. The formulas may not.
//!
//! In reading order: `pace` (times in steps), `operand` (inputs over a control cycle), `generator` (the
//! traits of units), `laws` (examples). Each opcode has a module. `ramp` computes many steps of a straight
//! line by additions alone.
#![tactic(auto)]

mod biquad;
mod delay;
mod diff;
mod downsamp;
mod generator;
mod integ;
mod interp;
mod laws;
mod limit;
mod line;
mod linen;
mod linseg;
mod operand;
mod pace;
mod ramp;
mod samphold;
mod stepwise;

pub use biquad::Biquad;
pub use delay::Delay;
pub use diff::Diff;
pub use downsamp::Downsamp;
pub use generator::{Generator, Stepper};
pub use integ::Integ;
pub use interp::Interp;
pub use laws::worked_examples;
pub use limit::LimitUnit;
pub use line::LineUnit;
pub use linen::Linen;
pub use linseg::Linseg;
pub use operand::{Operand, argument};
pub use pace::delay_samples;
pub use samphold::Samphold;
