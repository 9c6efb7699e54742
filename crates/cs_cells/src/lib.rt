//! The resources that notes share, and which of them a note may touch. Resources have cells in one row, which
//! a `Layout` assigns; a `Job`, such as the performance of a note, reads and writes cells through a `Bank`,
//! within its `Footprint`.
//!
//! The one contract: the effect of a job is a function of the job and of the cells that it uses, and only
//! cells that it writes change (`Job`, the frame law). The two laws of the serial run (`serial_laws`), on
//! which every order of running depends, follow from the frame law.
//!
//! How a layout finds a resource, and how a bank stores its cells, may change without anyone above noticing.
//! In reading order: `footprint`, `layout`, `bank`, `job`, `serial`; `examples` has a small layout as a
//! worked example.
#![tactic(auto)]

mod bank;
mod examples;
mod footprint;
mod job;
mod layout;
mod serial;

pub use bank::{Bank, PlainBank};
pub use examples::layout_examples;
pub use footprint::{Area, Footprint};
pub use job::Job;
pub use layout::Layout;
pub use serial::serial_laws;
