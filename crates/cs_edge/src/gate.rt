/// An object that is called before each note runs: a worker calls it after claiming the note. If notes run in
/// rows, the worker has claimed the entire row, so the gate may wait for notes of other rows, but not for a
/// later note of the same row.
pub trait Gate {
    /// `cycle` counts control cycles from 0; `note` is the note's index in the cycle's serial order, from 0.
    fn before(&self, cycle: u32, note: u32);
}

/// A gate that is always open: it does nothing.
#[derive(Clone, Copy)]
pub struct OpenGate {}

impl OpenGate {
    /// Returns an open gate.
    pub fn new() -> OpenGate {
        OpenGate {}
    }
}

impl Gate for OpenGate {
    fn before(&self, _cycle: u32, _note: u32) {}
}
