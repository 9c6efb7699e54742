// Three jobs that add to the first cell.
ghost use Rattle.std.specs.Prelude.{◌≡◌, [], ◌∷◌, length, All, IfOk, IfSome};
ghost use Rattle.cs_crew_trial.specs.{Addings.adding, Marks.IsOver};

use crate::adding::Adding;
use cs_base::Places;
use cs_cells::{Footprint, Layout};
use std::alloc::{AllocError, Global};

// Returns the footprint of a job that uses and writes the first resource.
fn first_place(alloc: Global) -> Result<Footprint, AllocError>
    ensures { IfOk result (λ foot. (foot.uses ≡ 0 ∷ []) × (foot.writes ≡ 0 ∷ [])) }
{
    Ok(Footprint {
        uses: Places::from_vec(Vec::from_array(alloc, [0u32])?),
        writes: Places::from_vec(Vec::from_array(alloc, [0u32])?),
    })
}

// Returns such a job. None if the first cell isn't the first resource's, or if memory runs out.
fn adding_over<'t>(alloc: Global, layout: &'t Layout) -> Option<Adding<'t>>
    requires { length layout.now ≡ 6 }
    ensures { IfSome result (IsOver adding layout.now) }
{
    let area = layout.area(0);
    if area.first > 0 || area.length == 0 {
        return None;
    }
    match first_place(alloc) {
        Ok(foot) => Some(Adding { layout, foot }),
        Err(_) => None,
    }
}

/// Returns three such jobs.
pub fn three_over<'t>(alloc: Global, layout: &'t Layout) -> Option<Vec<Adding<'t>>>
    requires { length layout.now ≡ 6 }
    ensures over { IfSome result (λ jobs. All (IsOver adding layout.now) jobs.items) }
    ensures three { IfSome result (λ jobs. length jobs.items ≡ 3) }
{
    let Some(first) = adding_over(alloc, layout) else {
        return None;
    };
    let Some(second) = adding_over(alloc, layout) else {
        return None;
    };
    let Some(third) = adding_over(alloc, layout) else {
        return None;
    };
    match Vec::from_array(alloc, [first, second, third]) {
        Ok(jobs) => Some(jobs),
        Err(_) => None,
    }
}
