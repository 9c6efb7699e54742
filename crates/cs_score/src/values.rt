// The values of a note's fields from p4 on. Values that several statements carry are stored once.
ghost use Rattle.std.specs.Prelude.{◌≡◌, [], ◌++◌, drop, length, IfOk};
ghost use Rattle.cs_score.specs.inner.Runs.{run_items};
ghost use Rattle.std.specs.Rc.{rc_value};

use cs_base::{Num, Nums};
use std::alloc::{AllocError, Global};
use std::marker::Model;
use std::rc::Rc;

/// The values of a note's fields from p4 on. Carried values are shared with the previous statement. Contracts
/// see only the list of values.
#[derive(Drop)]
pub struct NoteValues {
    run: Option<Rc<Run>>,
}

// The values that a statement writes itself. They replace the first values of the run below, if there is
// one.
#[derive(Drop)]
enum Run {
    Last(Nums),
    Over(Nums, Rc<Run>),
}

impl Model for NoteValues {
    ghost use Rattle.std.specs.Prelude.{List, ℤ};
    ghost use Rattle.cs_score.specs.inner.Runs.{items_of};

    ghost Value = { List ℤ };

    ghost view = { λ v. items_of v.run };
}

impl NoteValues {
    /// No values.
    pub fn none() -> NoteValues
        ensures { result ≡ [] }
    {
        NoteValues { run: None }
    }

    /// The values `own` of a statement, which replace the first values of the previous statement.
    pub fn over(alloc: Global, own: Nums, before: &NoteValues) -> Result<NoteValues, AllocError>
        ensures { IfOk result (λ values. values ≡ own ++ drop (length own) before.now) }
    {
        let below = before.behind(own.len())?;
        if own.is_empty() {
            return Ok(below);
        }
        let run = match below.run {
            None => Run::Last(own),
            Some(below) => Run::Over(own, below),
        };
        let run = Rc::new(alloc, run)?;
        Ok(NoteValues { run: Some(run) })
    }

    // Values that are the same from place `count` on; the first `count` may differ.
    fn behind(&self, count: usize) -> Result<NoteValues, AllocError>
        ensures { IfOk result (λ values. drop count values ≡ drop count self.now) }
    {
        match &self.run {
            None => Ok(NoteValues::none()),
            Some(run) => behind(run, count),
        }
    }

    /// Returns the same values again, shared. It allocates no memory.
    pub fn share(&self) -> Result<NoteValues, AllocError>
        ensures { IfOk result (λ values. values ≡ self.now) }
    {
        match &self.run {
            None => Ok(NoteValues::none()),
            Some(run) => Ok(NoteValues {
                run: Some(run.clone()?),
            }),
        }
    }

    /// Appends all values, in order, to a list.
    pub fn append_to(&self, nums: &mut Vec<Num>) -> Result<(), AllocError>
        ensures { IfOk result (λ _. nums.new.items ≡ nums.old.items ++ self.now) }
    {
        match &self.run {
            None => Ok(()),
            Some(run) => append(run, 0, nums),
        }
    }
}

// The run, or the first run below it that holds more than `count` values itself.
fn behind(run: &Rc<Run>, count: usize) -> Result<NoteValues, AllocError>
    ensures { IfOk result (λ values. drop count values ≡ drop count (run_items (rc_value run.now))) }
{
    match run.as_ref() {
        Run::Over(own, below) if own.len() <= count => behind(below, count),
        Run::Last(own) if own.len() <= count => Ok(NoteValues::none()),
        _ => Ok(NoteValues {
            run: Some(run.clone()?),
        }),
    }
}

// Appends the values from place `from` on.
fn append(run: &Rc<Run>, from: usize, nums: &mut Vec<Num>) -> Result<(), AllocError>
    ensures { IfOk result (λ _. nums.new.items ≡ nums.old.items ++ drop from (run_items (rc_value run.now))) }
{
    match run.as_ref() {
        Run::Last(own) => Ok(nums.extend_from_slice(rest(own, from))?),
        Run::Over(own, below) => {
            nums.extend_from_slice(rest(own, from))?;
            append(below, from.max(own.len()), nums)
        }
    }
}

fn rest(own: &Nums, from: usize) -> &[Num]
    ensures { result.now ≡ drop from own.now }
{
    let own = own.as_slice();
    if from < own.len() { &own[from..] } else { &[] }
}
