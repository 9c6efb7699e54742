// The graph of the jobs of a cycle, which is reused while their footprints stay the same.
ghost use Rattle.cs_base.specs.Limits.{most_notes};
ghost use Rattle.std.specs.Prelude.{◌≡◌, ◌≤◌, map, length, true, IfOk, OnErr, OnOk};
ghost use Rattle.cs_desk.specs.Courses.{IsCourseOf};

use cs_base::OutOfMemory;
use cs_cells::{Footprint, Job};
use cs_graph::Graph;
use std::alloc::{AllocError, Global};
use std::sync::Arc;

/// The graph of a cycle's jobs, and the footprints that it was built from.
#[derive(Drop)]
pub struct Course {
    pub graph: Arc<Graph, Global>,
    pub feet: Vec<Footprint>,
}

impl Course {
    /// Builds the course of jobs with these footprints, in serial order; there are at most as many as a cycle
    /// may have notes.
    pub fn of_feet(alloc: Global, feet: Vec<Footprint>) -> Result<Course, OutOfMemory>
        requires { length feet.items ≤ most_notes }
        ensures { IfOk result (IsCourseOf feet.items) }
    {
        let graph = Arc::new(alloc, Graph::of_feet(alloc, &feet)?)?;
        Ok(Course { graph, feet })
    }

    /// Becomes the course of jobs with these footprints, unless it is already. If memory runs out it stays
    /// unchanged.
    pub fn follow(&mut self, alloc: Global, feet: Vec<Footprint>) -> Result<(), OutOfMemory>
        requires few { length feet.items ≤ most_notes }
        requires course { IsCourseOf self.old.feet.items self.old }
        ensures course { OnOk result (IsCourseOf feet.items self.new) }
        ensures kept { OnErr result (self.new ≡ self.old) }
    {
        if !are_same(&self.feet, &feet) {
            *self = Course::of_feet(alloc, feet)?;
        }
        Ok(())
    }
}

// Returns whether these footprints equal the stored ones.
fn are_same(kept: &[Footprint], feet: &[Footprint]) -> bool
    ensures { result ≡ true → feet.now ≡ kept.now }
{
    if kept.len() != feet.len() {
        return false;
    }
    for (i, foot) in feet.iter().enumerate() {
        if !foot.is(&kept[i]) {
            return false;
        }
    }
    true
}

/// Returns copies of the jobs' footprints.
pub fn feet_of<J: Job>(alloc: Global, jobs: &[J]) -> Result<Vec<Footprint>, AllocError>
    ensures { IfOk result (λ feet. feet.items ≡ map J.means.foot jobs.now) }
{
    let mut feet = Vec::with_capacity(alloc, jobs.len())?;
    for job in jobs {
        feet.push_reserved(job.footprint().copy(alloc)?);
    }
    Ok(feet)
}
