// Which calls of an object in memory fail.
ghost use Rattle.std.specs.Prelude.{◌≡◌, ◌≤◌, ◌↔◌, IsTrue, IsFalse, Contains};
ghost use Rattle.cs_edge.specs.{Told.Rose, Memory.next_call};

use crate::Calls;

/// The calls that are to fail, the number of calls made, and the number of calls that failed.
#[derive(Drop)]
pub struct Script {
    pub failing: Calls,
    pub calls: u64,
    pub faults: u64,
}

impl Script {
    /// Returns a script before any call.
    pub fn new(failing: Calls) -> Script
        ensures { result ≡ record { failing = failing; calls = 0; faults = 0 } }
    {
        Script {
            failing,
            calls: 0,
            faults: 0,
        }
    }

    /// Counts a call, and returns whether it must fail.
    pub fn call_fails(&mut self) -> bool
        ensures calls { self.new.calls ≡ next_call self.old.calls }
        ensures listed { IsTrue result ↔ Contains self.old.failing self.new.calls }
        ensures later { self.old.faults ≤ self.new.faults }
        ensures rose { IsTrue result → Rose self.old.faults self.new.faults }
        ensures same { IsFalse result → self.new.faults ≡ self.old.faults }
        ensures failing { self.new.failing ≡ self.old.failing }
    {
        self.calls = self.calls.saturating_add(1);
        let fails = self.failing.as_slice().contains(&self.calls);
        if fails {
            self.faults = self.faults.saturating_add(1);
        }
        fails
    }
}
