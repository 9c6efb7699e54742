// Jobs that leave a mark when they run, on cells that no code reads.
ghost use Rattle.std.specs.Prelude.{◌≡◌, length, All, IfOk};
ghost use Rattle.cs_cells.specs.{Areas.IsFootprint, Areas.IsLaid};
ghost use Rattle.cs_crew_trial.specs.Marks.{IsOver, marking};

use cs_base::{Places, Res};
use cs_cells::{Area, Bank, Footprint, Job, Layout};
use std::alloc::{AllocError, Global};
use std::sync::atomic::{AtomicU64, Ordering};

/// The number of resources: one for each pair of four notes.
pub const PLACES: u32 = 6;

/// A job that stores the time of its run in `mark`, counted from 1; 0 until it runs. Its meaning doesn't
/// include this.
#[derive(Drop)]
pub struct Marked<'t> {
    layout: &'t Layout,
    foot: Footprint,
    mark: &'t AtomicU64,
    clock: &'t AtomicU64,
}

impl<'t> Job for Marked<'t> {
    ghost use Rattle.cs_crew_trial.specs.Marks.{marking, marking_frames};

    ghost means = { marking };

    fn footprint(&self) -> &Footprint {
        &self.foot
    }

    fn run<B: Bank>(&mut self, _bank: &mut B) {
        let time = self.clock.fetch_add(1, Ordering::SeqCst);
        self.mark.store(time.saturating_add(1), Ordering::SeqCst);
    }

    ghost frames = { marking_frames };
}

/// Returns a job for each of `marks`; it uses and writes the resources whose bits are set in its entry of
/// `bits`, and none without an entry.
pub fn jobs_of<'t>(
    alloc: Global,
    layout: &'t Layout,
    bits: &[u32],
    marks: &'t [AtomicU64],
    clock: &'t AtomicU64,
) -> Result<Vec<Marked<'t>>, AllocError>
    requires { length layout.now ≡ 6 }
    ensures over { IfOk result (λ jobs. All (IsOver marking layout.now) jobs.items) }
    ensures few { IfOk result (λ jobs. length jobs.items ≡ length marks.now) }
{
    let mut jobs = Vec::new(alloc);
    for at in 0..marks.len() {
        jobs.push(Marked {
            layout,
            foot: foot_of(alloc, bits.get(at).copied().unwrap_or(0))?,
            mark: &marks[at],
            clock,
        })?;
    }
    Ok(jobs)
}

/// Returns the footprint of a job that uses and writes the resources whose bits are set.
pub fn foot_of(alloc: Global, bits: u32) -> Result<Footprint, AllocError>
    ensures { IfOk result (IsFootprint 6) }
{
    let mut places = Vec::new(alloc);
    for place in 0..PLACES {
        if bits >> place & 1 == 1 {
            places.push(place)?;
        }
    }
    Ok(Footprint {
        uses: Places::from_vec(places.as_slice().to_vec(alloc)?),
        writes: Places::from_vec(places),
    })
}

/// Returns one resource with one cell for each pair of four notes.
pub fn areas(alloc: Global) -> Result<Vec<Area>, AllocError>
    ensures laid { IfOk result (λ areas. IsLaid areas.items) }
    ensures count { IfOk result (λ areas. length areas.items ≡ 6) }
{
    let mut areas = Vec::new(alloc);
    for place in 0..PLACES {
        areas.push(Area {
            res: Res::Gk(place as usize),
            first: place,
            length: 1,
        })?;
    }
    Ok(areas)
}
