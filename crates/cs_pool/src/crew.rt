// The performers of a performance's notes: a number of workers, and the gate that each of them calls.
ghost use Rattle.std.specs.Prelude.{◌≡◌, ◌≤◌};

/// A crew of 1 to 32 workers, one of which is the caller, and the gate that each of them calls before it runs
/// a note.
#[derive(Drop)]
pub struct Crew<'r, R, G> {
    pub rt: &'r R,
    pub workers: u32,
    pub gate: &'r G,
    ghost few: { (1 ≤ workers) × (workers ≤ 32) },
}

impl<'r, R, G> Crew<'r, R, G> {
    /// Makes a crew of `workers` workers, from 1 to 32. All workers except the caller are started once, for
    /// the complete performance; a crew of one starts no thread. The performance is the same for any number.
    pub fn new(rt: &'r R, workers: u32, gate: &'r G) -> Crew<'r, R, G>
        requires { (1 ≤ workers) × (workers ≤ 32) }
        ensures workers { result.workers ≡ workers }
        ensures gate { result.gate.now ≡ gate.now }
    {
        Crew { rt, workers, gate }
    }
}
