// Passing the mix to the taps.
ghost use Rattle.std.specs.Prelude.{ℤ, List, ◌++◌};
ghost use Rattle.cs_perform.specs.Hearing.{Told};

use cs_edge::Tap;

/// Passes the next values of the mix to each tap.
pub(crate) fn tell(taps: &mut Vec<Box<dyn Tap>>, frames: &[i64])
    ensures { Told (λ t h. stands_for t h) taps.old.items taps.new.items frames.now }
{
    for i in 0..taps.len() {
        tell_one(&mut taps[i], frames);
    }
}

fn tell_one(tap: &mut Box<dyn Tap>, frames: &[i64])
    ensures { (heard : List ℤ) → stands_for tap.old heard → stands_for tap.new (heard ++ frames.now) }
{
    tap.take(frames);
}
