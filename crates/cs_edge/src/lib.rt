//! The edge of the program: every file that is read, every sound file and line of text that is written, every
//! meter and every gate is an object that the caller passes in. The crates above use these objects only
//! through four traits.
//!
//! The one contract: the state that a shelf or a sink tells after a call follows from the state that it told
//! before; a call that succeeds leaves its fault count unchanged, and a call that fails raises it, up to the
//! maximum; a tap that represents a list of values represents the longer list after it takes more values.
//!
//! The data that an object stores, and their form, may change without anyone above noticing; so may the
//! adapters over the runtime.
//!
//! In reading order: `moves` (the calls made on an object), `files`, `shelf`, `sink`, `writing` (writes an
//! entire piece), `gate`, `tap`; the meter, `page` (a line in a buffer), `peak`, `examples` (lines of meters,
//! computed); `line_buffer` (text that is written in complete lines), `adapters` over files and writers,
//! which are the edge itself; and separately `fakes`, objects only for tests.
#![tactic(auto)]

mod adapters;
mod examples;
mod fakes;
mod files;
mod gate;
mod line_buffer;
mod moves;
mod page;
mod peak;
mod shelf;
mod sink;
mod tap;
mod writing;

pub use adapters::{FileShelf, FileSink, TalkOut};
pub use examples::worked_examples;
pub use fakes::{MemShelf, MemSink, MirrorTap, SureShelf, SureSink, sure_never_fail};
pub use files::{Calls, Files, NamedBytes};
pub use gate::{Gate, OpenGate};
pub use moves::{Failed, Move};
pub use peak::PeakTap;
pub use shelf::Shelf;
pub use sink::Sink;
pub use tap::Tap;
pub use writing::write_all;
