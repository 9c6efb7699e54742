// A job that adds to a cell.
ghost use Rattle.std.specs.Prelude.{◌≡◌, true};
ghost use Rattle.cs_cells.specs.Cells.{covers};

use cs_base::Num;
use cs_cells::{Bank, Footprint, Job, Layout};

/// A job that adds one 65,536th to the first cell. It uses and writes the first resource.
#[derive(Drop)]
pub struct Adding<'t> {
    pub(crate) layout: &'t Layout,
    pub(crate) foot: Footprint,
    ghost uses: { covers layout.now foot.uses 0 ≡ true },
    ghost writes: { covers layout.now foot.writes 0 ≡ true },
}

impl<'t> Job for Adding<'t> {
    ghost use Rattle.cs_crew_trial.specs.{AddingFrames.adding_frames, Addings.adding};

    ghost means = { adding };

    fn footprint(&self) -> &Footprint {
        &self.foot
    }

    fn run<B: Bank>(&mut self, bank: &mut B) {
        let number = bank.get(0);
        bank.set(0, number.add(Num::of_raw(1)));
    }

    ghost frames = { adding_frames };
}
