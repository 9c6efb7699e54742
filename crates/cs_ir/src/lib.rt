//! The flat code of a note: registers, ops, and the effect of a code in a world.
//!
//! Its one contract: a `ValidCode` is a code that can be run (specs/Validity.antt), and everything that runs
//! a code may rely on it. `Code::check` accepts exactly these codes and returns any other; `Body::new` takes
//! codes that are proved to be valid. The effect of a code is the fold over its ops in specs/Machine.antt, in
//! any world (specs/Worlds.antt). The shared resources that it may touch are in specs/Resources.antt. The
//! representation of operands, touches and instruments may be changed without anyone above noticing.
//!
//! In reading order: `register`, `operands`, `op` (the parts of a code), `step` (ops and calls of routines),
//! `window` (where a routine's registers and units begin), `touches` (tables and zak places by number, and
//! the shared resources that ops touch), `routine` (steps that are compiled once, and the ops of a code),
//! `draft` (building a code), `validity` (which code can be run), `instrument` (codes under numbers), `ask`
//! (a note that a note schedules), `value` (operators and functions), `laws`.
#![tactic(auto)]

mod ask;
mod draft;
mod instrument;
mod laws;
mod op;
mod operands;
mod register;
mod routine;
mod step;
mod touches;
mod validity;
mod value;
mod window;

pub use ask::Ask;
pub use draft::{CodeDraft, Mark};
pub use instrument::{Body, Instrument, Instruments};
pub use laws::{valid_code_is_fine, worked_examples};
pub use op::{Act, Code, Op, Reach};
pub use operands::Operands;
pub use register::{Counts, HELD_KINDS, KINDS, Kind, Reg, RegisterCounts};
pub use routine::{Ops, Routine};
pub use step::{Call, Step};
pub use touches::{Touch, Touches, places_of, zak_place};
pub use validity::ValidCode;
pub use value::{apply, combine, holds, negate, truth};
pub use window::{OpAt, Reads, Window};
