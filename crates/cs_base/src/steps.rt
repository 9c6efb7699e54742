// A count of steps, with which a contract bounds work.
ghost use Rattle.std.specs.Prelude.{◌≡◌, ◌+◌, ◌-◌, ◌<◌, ◌^◌};

/// A counter that only contracts read.
#[derive(Clone, Copy)]
pub struct Steps {
    pub count: u64,
}

impl Steps {
    /// Returns a counter at 0.
    pub fn new() -> Steps
        ensures { result.count ≡ 0 }
    {
        Steps { count: 0 }
    }

    /// Adds one to the count.
    pub fn tick(&mut self)
        requires { self.old.count < 2 ^ 64 - 1 }
        ensures { self.new.count ≡ self.old.count + 1 }
    {
        self.count += 1;
    }
}
