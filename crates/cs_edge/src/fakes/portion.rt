ghost use Rattle.std.specs.Prelude.{◌≡◌, ◌≤◌, ◌<◌, min};

/// The most bytes that a sink accepts in one write, at least 1.
#[derive(Drop)]
pub struct Portion {
    pub most: u32,
    ghost takes_some: { 1 ≤ most },
}

impl Portion {
    /// Returns how many bytes of a piece of `length` bytes are accepted.
    pub fn of(&self, length: usize) -> usize
        ensures taken { result ≡ min length self.now.most }
        ensures some { 0 < length → 0 < result }
        ensures within { result ≤ length }
    {
        length.min(self.most as usize)
    }
}
