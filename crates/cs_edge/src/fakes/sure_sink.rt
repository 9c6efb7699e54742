ghost use Rattle.std.specs.Prelude.{None};

use crate::{Failed, Sink};

/// A sink that accepts everything, stores and tells nothing, and never fails.
#[derive(Clone, Copy)]
pub struct SureSink {}

impl SureSink {
    /// Returns a sink.
    pub fn new() -> SureSink {
        SureSink {}
    }
}

impl Sink for SureSink {
    ghost tells = { λ _. record { held = None; moves = None; faults = 0 } };

    fn begin(&mut self, _name: &str) -> Result<(), Failed> {
        Ok(())
    }

    fn write(&mut self, piece: &[u8]) -> Result<usize, Failed> {
        Ok(piece.len())
    }

    fn end(&mut self) -> Result<(), Failed> {
        Ok(())
    }
}
