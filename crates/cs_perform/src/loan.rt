// What is lent to a performance.
ghost use Rattle.std.specs.Prelude.{◌≡◌};

use cs_edge::Tap;

/// What the caller of a performance lends to it. A scope's closure has no contract about a reference that it
/// captures, so all references are passed to it as one value and come back as one.
#[derive(Drop)]
pub(crate) struct Loan<'a, K, C> {
    /// The sink of the sound file.
    pub wav: &'a mut K,
    /// The meters.
    pub taps: &'a mut Vec<Box<dyn Tap>>,
    /// The counter of cycles.
    pub tally: &'a mut C,
}

/// Ends the loans. For the prover: it does nothing as it runs; taking all the references that came back shows
/// that each one's value is final.
pub(crate) fn take_back<A, B, C>(a: &mut A, b: &mut B, c: &mut C)
    ensures { (a.new ≡ a.old) × (b.new ≡ b.old) × (c.new ≡ c.old) }
{}
