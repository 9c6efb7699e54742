// The waiting notes.
ghost use Rattle.std.specs.Prelude.{◌≡◌, ◌<◌, ◌++◌, ◌∷◌, [], IfOk, OnErr, OnOk};
ghost use Rattle.std.specs.{BTreeMap.IsOrdered, Ordering.nat_cmp};
ghost use Rattle.cs_base.specs.Limits.{most_asks};
ghost use Rattle.cs_sched.specs.Times.{clock_of, due_of};
ghost use Rattle.cs_sched.specs.Waiting.{answer_to, nothing_waits, waiting, with_answer, IsTaken};
ghost use Rattle.cs_sched.specs.declared.pending.Added.TheVariants as added;
ghost use Rattle.cs_sched.specs.inner.ByCycle.{Puts, at_cycle};

use crate::due::{Due, begins_in, fields_of, lasts};
use cs_base::{Head, MOST_ASKS, Num, OutOfMemory};
use cs_ir::Ask;
use std::alloc::Global;
use std::collections::{BTreeMap, LinkedList};
use std::marker::Model;

/// The time at which a note schedules another, and the piece.
#[derive(Clone, Copy)]
pub struct Asking {
    /// The control cycle, counted from the start of the piece.
    pub cycle: u32,
    /// The p2 of the scheduling note, in seconds.
    pub time: Num,
    /// The header of the orchestra.
    pub head: Head,
    /// The number of control cycles of the piece.
    pub total: u32,
}

/// The outcome of scheduling a note.
#[derive(Clone, Copy)]
pub enum Added {
    Kept,
    /// The note isn't added: its duration is negative.
    Negative,
    /// The note isn't added: it would begin after the piece has ended.
    PastEnd,
    /// The note isn't added: 100,000 notes have been added before.
    TooMany,
}

/// Notes that were scheduled and haven't begun. Contracts see the notes that begin in each cycle, in the
/// order in which they were added, and the number of notes added in all.
#[derive(Drop)]
pub struct Pending {
    dues: BTreeMap<u32, LinkedList<Due>>,
    kept: usize,
}

impl Model for Pending {
    ghost use Rattle.cs_sched.specs.{Waiting.Queue, inner.ByCycle.AreByCycle, inner.ByCycle.all_dues};

    ghost Value = { Queue };

    ghost view = { λ p. record { dues = all_dues p.dues.entries; kept = p.kept } };

    ghost invariant = { λ p. AreByCycle p.dues p.kept };
}

impl Pending {
    /// No notes. Stores the allocator, and can't run out of memory.
    pub fn new(alloc: Global) -> Pending
        ensures { waiting result ≡ nothing_waits }
    {
        Pending {
            dues: BTreeMap::new(alloc),
            kept: 0,
        }
    }

    /// Adds the note that a note schedules, unless another answer than `Kept` applies: `Negative`, `TooMany`
    /// (beyond 100,000 in all), `PastEnd`. Returns the first answer that applies. If memory runs out, nothing
    /// has changed.
    pub fn add(&mut self, alloc: Global, ask: Ask, at: Asking) -> Result<Added, OutOfMemory>
        ensures answer { IfOk result (λ a. a ≡ answer_to (clock_of at.head at.total) at.cycle ask self.old.kept) }
        ensures waits { IfOk result (λ a. waiting self.new
            ≡ with_answer a (due_of (clock_of at.head at.total) at.cycle at.time ask) (waiting self.old)) }
        ensures same { OnErr result (self.new ≡ self.old) }
    {
        let begins = begins_in(&at.head, at.cycle, &ask);
        if ask.dur.raw() < 0 {
            return Ok(Added::Negative);
        }
        if self.kept >= MOST_ASKS {
            return Ok(Added::TooMany);
        }
        if begins >= u128::from(at.total) {
            return Ok(Added::PastEnd);
        }
        let due = Due {
            cycle: begins as u32,
            cycles: lasts(&at.head, at.cycle, at.total, &ask),
            number: ask.number,
            fields: fields_of(alloc, at.time, &ask)?,
        };
        self.keep(alloc, due)?;
        Ok(Added::Kept)
    }

    /// Takes out the note that was added first among the notes that begin in a cycle. Returns None if there
    /// is none.
    pub fn next(&mut self, cycle: u32) -> Option<Due>
        ensures { IsTaken cycle (waiting self.old) result (waiting self.new) }
    {
        let queue = self.dues.get_mut(&cycle)?;
        let due = queue.pop_front();
        if queue.is_empty() {
            forget(&mut self.dues, cycle);
        }
        due
    }

    // Puts a note after all notes that begin in its cycle.
    fn keep(&mut self, alloc: Global, due: Due) -> Result<(), OutOfMemory>
        requires { self.old.kept < most_asks }
        ensures waits { OnOk result (waiting self.new ≡ with_answer added.Kept due (waiting self.old)) }
        ensures same { OnErr result (self.new ≡ self.old) }
    {
        put(&mut self.dues, alloc, due)?;
        self.kept += 1;
        Ok(())
    }
}

// Puts a note after all notes of its cycle.
fn put(
    dues: &mut BTreeMap<u32, LinkedList<Due>>,
    alloc: Global,
    due: Due,
) -> Result<(), OutOfMemory>
    ensures put { OnOk result (Puts dues.old dues.new due.cycle (at_cycle dues.old due.cycle ++ due ∷ [])) }
    ensures ordered { IsOrdered nat_cmp dues.old → IsOrdered nat_cmp dues.new }
    ensures same { OnErr result (dues.new.entries ≡ dues.old.entries) }
{
    let cycle = due.cycle;
    match dues.get_mut(&cycle) {
        Some(others) => {
            others.push_back(due)?;
            Ok(())
        }
        None => {
            let mut alone = LinkedList::new(alloc);
            alone.push_back(due)?;
            dues.insert(cycle, alone)?;
            Ok(())
        }
    }
}

// Removes a cycle that has no notes.
fn forget(dues: &mut BTreeMap<u32, LinkedList<Due>>, cycle: u32)
    ensures put { Puts dues.old dues.new cycle [] }
    ensures ordered { IsOrdered nat_cmp dues.new }
{
    dues.remove(&cycle);
}
