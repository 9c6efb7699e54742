// One value for each rate, such as a count.
ghost use Rattle.std.specs.Prelude.{◌≡◌};
ghost use Rattle.cs_base.specs.Rates.{at_rate};

use crate::Rate;

/// One value for each rate.
#[derive(Clone, Copy)]
pub struct PerRate<T> {
    pub init: T,
    pub control: T,
    pub audio: T,
}

impl<T: Copy> PerRate<T> {
    /// Returns the value for `rate`.
    pub fn of(&self, rate: Rate) -> T
        ensures { result ≡ at_rate self.now rate }
    {
        match rate {
            Rate::Init => self.init,
            Rate::Control => self.control,
            Rate::Audio => self.audio,
        }
    }
}
