// The beginning of a cycle's notes.
ghost use Rattle.std.specs.Prelude.{◌≡◌, ◌==◌, filter, true, IfOk, OnOk};
ghost use Rattle.std.specs.{List.All, List.Sorted.IsNonDecreasingBy};
ghost use Rattle.cs_cells.specs.{Access.AllowsBelow, Areas.word_count};
ghost use Rattle.cs_piece_meaning.specs.{Course.begins, Moments.Moment};
ghost use Rattle.cs_piece_meaning.specs.Starts.{act_done, all_done, all_waited};
ghost use Rattle.cs_life.specs.Standing.{StandsFor};
ghost use Rattle.cs_life.specs.inner.Doing.{CanBeDone, CanGoOn, HasGoneOn};
ghost use Rattle.cs_piece.specs.Setups.{composition_of};
ghost use Rattle.cs_life.specs.inner.Roster.{Grew};
ghost use Rattle.cs_tempo.specs.declared.plot.Event.{Event};

use crate::leaving::Leaving;
use crate::life::Life;
use cs_base::{MOST_ASKS, OutOfMemory};
use cs_cells::Bank;
use cs_piece::GivenTable;
use cs_sched::Due;
use cs_tempo::{Event, EventAct};
use cs_voice::Voice;
use std::alloc::Global;

impl<'t> Life<'t> {
    /// Begins the notes of a cycle: first the notes that end with its start leave, then its events are done,
    /// then the notes that wait for it start. `cycle` is the number of the next cycle; after the last cycle
    /// only its events are done. `voices` are the voices that play, in performing order. Returns whether the
    /// same notes play as before. If memory runs out, nothing is promised about the voices.
    pub fn begin_cycle<B: Bank>(
        &mut self,
        alloc: Global,
        cycle: u32,
        voices: &mut Vec<Voice<'t>>,
        bank: &mut B,
    ) -> Result<bool, OutOfMemory>
        requires stands { (m : Moment) × StandsFor (composition_of self.old.setup.now) self.old voices.old.items
            (B.cells bank.old) m }
        requires access { AllowsBelow (B.access (B.rest bank.old)) (word_count self.old.setup.now.layout) }
        ensures begun { OnOk result ((m : Moment) → StandsFor
            (composition_of self.old.setup.now) self.old voices.old.items (B.cells bank.old) m
            → StandsFor (composition_of self.old.setup.now) self.new voices.new.items (B.cells bank.new)
            (begins (composition_of self.old.setup.now) cycle m)) }
        ensures same { IfOk result (λ stay. stay ≡ true → voices.new.items ≡ voices.old.items) }
        ensures setup { self.new.setup.now ≡ self.old.setup.now }
        ensures rest { B.rest bank.new ≡ B.rest bank.old }
    {
        let playing = voices.len();
        self.leave(voices, Leaving::Over { cycle });
        let stayed = voices.len();
        let setup = self.setup;
        setup.facts();
        let events = events_of(setup.plot().events.as_slice(), cycle);
        self.do_all(alloc, events, voices, bank)?;
        self.start_waiting(alloc, cycle, voices, bank)?;
        Ok(all_stay(playing, stayed, voices.len()))
    }

    // Does events, one after another.
    fn do_all<B: Bank>(
        &mut self,
        alloc: Global,
        events: &[Event],
        voices: &mut Vec<Voice<'t>>,
        bank: &mut B,
    ) -> Result<(), OutOfMemory>
        requires able { CanGoOn (B.access (B.rest bank.old)) self.old voices.old.items (B.cells bank.old) }
        requires events { All (λ (e : Event). CanBeDone (composition_of self.old.setup.now) e.act) events.now }
        ensures done { OnOk result (HasGoneOn (all_done (composition_of self.old.setup.now) events.now)
            self.old voices.old.items (B.cells bank.old) self.new voices.new.items (B.cells bank.new)) }
        ensures grown { OnOk result (Grew voices.old.items voices.new.items) }
        ensures setup { self.new.setup.now ≡ self.old.setup.now }
        ensures rest { B.rest bank.new ≡ B.rest bank.old }
    {
        for event in events {
            self.act(alloc, event, voices, bank)?;
        }
        Ok(())
    }

    // Does an event.
    fn act<B: Bank>(
        &mut self,
        alloc: Global,
        event: &Event,
        voices: &mut Vec<Voice<'t>>,
        bank: &mut B,
    ) -> Result<(), OutOfMemory>
        requires able { CanGoOn (B.access (B.rest bank.old)) self.old voices.old.items (B.cells bank.old) }
        requires event { CanBeDone (composition_of self.old.setup.now) event.now.act }
        ensures done { OnOk result (HasGoneOn (act_done
            (composition_of self.old.setup.now) event.now.cycle event.now.act)
            self.old voices.old.items (B.cells bank.old) self.new voices.new.items (B.cells bank.new)) }
        ensures grown { OnOk result (Grew voices.old.items voices.new.items) }
        ensures setup { self.new.setup.now ≡ self.old.setup.now }
        ensures rest { B.rest bank.new ≡ B.rest bank.old }
    {
        match &event.act {
            EventAct::Start {
                instr,
                cycles,
                fields,
            } => {
                let fields = fields.to_nums(alloc)?;
                let note = Due {
                    cycle: event.cycle,
                    cycles: *cycles,
                    number: i64::from(*instr),
                    fields,
                };
                self.start_note(alloc, note, voices, bank)
            }
            EventAct::Table {
                number,
                size,
                gen_,
                args,
            } => {
                let table = GivenTable {
                    number: *number,
                    size: *size,
                    gen_: *gen_,
                    args: args.as_slice(),
                };
                self.make_table(alloc, table, bank)
            }
        }
    }

    // Starts the notes that wait for a cycle, one after another, including those that are scheduled
    // meanwhile.
    fn start_waiting<B: Bank>(
        &mut self,
        alloc: Global,
        cycle: u32,
        voices: &mut Vec<Voice<'t>>,
        bank: &mut B,
    ) -> Result<(), OutOfMemory>
        requires able { CanGoOn (B.access (B.rest bank.old)) self.old voices.old.items (B.cells bank.old) }
        ensures started { OnOk result (HasGoneOn (all_waited (composition_of self.old.setup.now) cycle)
            self.old voices.old.items (B.cells bank.old) self.new voices.new.items (B.cells bank.new)) }
        ensures grown { OnOk result (Grew voices.old.items voices.new.items) }
        ensures setup { self.new.setup.now ≡ self.old.setup.now }
        ensures rest { B.rest bank.new ≡ B.rest bank.old }
    {
        for _ in 0..MOST_ASKS {
            let Some(due) = self.pending.next(cycle) else {
                return Ok(());
            };
            self.start_note(alloc, due, voices, bank)?;
        }
        Ok(())
    }
}

// Returns whether all notes that played have stayed and no more play now.
fn all_stay(playing: usize, stayed: usize, now: usize) -> bool
    ensures { result ≡ true → (stayed ≡ playing) × (now ≡ stayed) }
{
    stayed == playing && now == stayed
}

// Returns the events of a cycle from events that are in the order of their cycles.
fn events_of(events: &[Event], cycle: u32) -> &[Event]
    requires { IsNonDecreasingBy (λ (e : Event). e.cycle) events.now }
    ensures { result.now ≡ filter (λ (e : Event). e.cycle == cycle) events.now }
{
    let first = events.partition_point(|event| event.cycle < cycle);
    let rest = &events[first..];
    let count = rest.partition_point(|event| event.cycle <= cycle);
    &rest[..count]
}
