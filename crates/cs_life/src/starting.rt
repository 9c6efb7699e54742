// The start of a note: it is initialised, the notes that it schedules wait, and it joins those that play.
ghost use Rattle.std.specs.Prelude.{◌≡◌, ◌+◌, ◌==◌, ◌||◌, ℕ, ℤ, pos, true, List, OnOk, nat_lt, slice_index_or};
ghost use Rattle.cs_base.specs.Limits.{most_notes};
ghost use Rattle.cs_cells.specs.{Access.AllowsBelow, Areas.word_count, Cells.Cells};
ghost use Rattle.cs_piece_meaning.specs.{Moments.Composition, Moments.Moment, Moments.clock_of, Starts.start_of};
ghost use Rattle.cs_piece_meaning.specs.Starts.{Start, begun, entered, has_room, in_vain, initialised, start_in};
ghost use Rattle.cs_life.specs.Standing.{StandsFor};
ghost use Rattle.cs_life.specs.inner.Starting.{IsBegun, Wait, all_wanted, count_after};
ghost use Rattle.cs_meaning.specs.{Core.Block, Notes.Note, Plain.Plain};
ghost use Rattle.cs_sched.specs.Times as times;
ghost use Rattle.cs_piece.specs.{Ready.IsInstrumentOf, Setups.composition_of};
ghost use Rattle.cs_life.specs.inner.Roster.{Grew};
ghost use Rattle.cs_voice.specs.VoiceData.{VoiceData};

use crate::life::Life;
use crate::roster::join;
use cs_base::{MOST_NOTES, Num, OutOfMemory};
use cs_cells::{Bank, Job};
use cs_ir::Ask;
use cs_piece::Playable;
use cs_sched::{Added, Asking, Due, Pending};
use cs_voice::{NewNote, Started, Voice, start};
use std::alloc::Global;

impl<'t> Life<'t> {
    /// Starts a note in its cycle. If its instrument doesn't exist, if there is no room for it, or if its
    /// initialisation is refused, the start counts as one that started nothing. If memory runs out, nothing
    /// is promised about the voices.
    pub(crate) fn start_note<B: Bank>(
        &mut self,
        alloc: Global,
        note: Due,
        voices: &mut Vec<Voice<'t>>,
        bank: &mut B,
    ) -> Result<(), OutOfMemory>
        requires stands { (m : Moment) × StandsFor (composition_of self.old.setup.now) self.old voices.old.items
            (B.cells bank.old) m }
        requires access { AllowsBelow (B.access (B.rest bank.old)) (word_count self.old.setup.now.layout) }
        ensures started { OnOk result ((m : Moment)
            → StandsFor (composition_of self.old.setup.now) self.old voices.old.items (B.cells bank.old) m
            → StandsFor (composition_of self.old.setup.now) self.new voices.new.items (B.cells bank.new)
            (start_in (composition_of self.old.setup.now) note.cycle (start_of note) m)) }
        ensures grown { OnOk result (Grew voices.old.items voices.new.items) }
        ensures setup { self.new.setup.now ≡ self.old.setup.now }
        ensures rest { B.rest bank.new ≡ B.rest bank.old }
    {
        let setup = self.setup;
        match setup.instrument(note.number) {
            None => {
                self.start_nothing();
                Ok(())
            }
            Some(playable) => {
                if !has_room(note.cycles, voices.len()) {
                    self.start_nothing();
                    return Ok(());
                }
                self.begin(alloc, playable, note, voices, bank)
            }
        }
    }

    // Counts one more start that started nothing.
    fn start_nothing(&mut self)
        ensures counted { (c : Composition) (voices : List VoiceData) (cells : Cells) (m : Moment)
            → StandsFor c self.old voices cells m
            → StandsFor c self.new voices cells (in_vain m) }
        ensures setup { self.new.setup.now ≡ self.old.setup.now }
    {
        self.not_started = self.not_started.saturating_add(1);
    }

    // Initialises a note for which there is room; the notes that it schedules wait, and it joins those that
    // play.
    fn begin<B: Bank>(
        &mut self,
        alloc: Global,
        playable: Playable<'t>,
        note: Due,
        voices: &mut Vec<Voice<'t>>,
        bank: &mut B,
    ) -> Result<(), OutOfMemory>
        requires number { note.number ≡ pos playable.instrument.now.number }
        requires instrument { (body : Block)
            × IsInstrumentOf self.old.stage playable.instrument.now playable.foot.now body }
        requires stands { (m : Moment) × StandsFor (composition_of self.old.setup.now) self.old voices.old.items
            (B.cells bank.old) m }
        requires access { AllowsBelow (B.access (B.rest bank.old)) (word_count self.old.setup.now.layout) }
        ensures begun { let c : Composition = composition_of self.old.setup.now in
            let s : Start = start_of note in
            OnOk result ((body : Block) (m : Moment)
            → IsInstrumentOf self.old.stage playable.entry.instrument.now playable.entry.foot.now body
            → has_room s m ≡ true
            → StandsFor c self.old voices.old.items (B.cells bank.old) m
            → StandsFor c self.new voices.new.items (B.cells bank.new)
            (initialised c note.cycle s body (begun c m.made s body m) m)) }
        ensures grown { OnOk result (Grew voices.old.items voices.new.items) }
        ensures setup { self.new.setup.now ≡ self.old.setup.now }
        ensures rest { B.rest bank.new ≡ B.rest bank.old }
    {
        let Due {
            cycle,
            cycles,
            number: _,
            fields,
        } = note;
        let fields = fields.into_vec();
        let time = time_of(&fields);
        let until = end_of(cycle, cycles);
        let mut asks = Vec::new(alloc);
        let new_note = NewNote {
            instrument: playable.instrument,
            foot: playable.foot,
            stage: self.stage,
            made: &self.made,
            age: self.started,
            until,
        };
        let begun = start(alloc, &new_note, fields, &mut asks, bank)?;
        let at = Asking {
            cycle,
            time,
            head: *self.stage.head,
            total: self.setup.plot().cycles,
        };
        ask_all(alloc, asks, &at, &mut self.pending, &mut self.not_started)?;
        self.enter(begun, cycles, voices)
    }

    // Adds a note that was initialised to those that play if it lasts any cycle, or counts a start that
    // started nothing if it was refused.
    fn enter(
        &mut self,
        begun: Started<'t>,
        cycles: u32,
        voices: &mut Vec<Voice<'t>>,
    ) -> Result<(), OutOfMemory>
        ensures entered { OnOk result ((c : Composition) (cells : Cells) (now : ℕ) (s : Start) (body : Block)
            (t : Note Plain) (m : Moment)
            → IsBegun c self.old.stage self.old.made.items now s body t begun.entry → s.cycles ≡ cycles
            → has_room s m ≡ true
            → StandsFor c self.old voices.old.items cells m
            → StandsFor c self.new voices.new.items cells (entered now s body t t.world.cause m)) }
        ensures grown { OnOk result (Grew voices.old.items voices.new.items) }
        ensures setup { self.new.setup.now ≡ self.old.setup.now }
    {
        let Started::Live(voice) = begun else {
            self.start_nothing();
            return Ok(());
        };
        // For the prover: the invariant of voices holds for this one.
        let _ = voice.footprint();
        join(voice, cycles, voices)?;
        self.started = self.started.saturating_add(1);
        Ok(())
    }
}

// Returns whether a note that lasts `cycles` cycles may start while `playing` other notes play.
fn has_room(cycles: u32, playing: usize) -> bool
    ensures { result ≡ (cycles == 0 || nat_lt playing most_notes) }
{
    cycles == 0 || playing < MOST_NOTES
}

// Returns the second p-field, the start time of a note in seconds, or 0 if there is none.
fn time_of(fields: &[Num]) -> Num
    ensures { result ≡ slice_index_or fields.now 1 (pos 0) }
{
    match fields.get(1) {
        Some(time) => *time,
        None => Num::exact(0),
    }
}

// Returns the cycle in which a note has ended that begins in `cycle` and lasts `cycles` cycles.
fn end_of(cycle: u32, cycles: u32) -> u64
    ensures { result ≡ cycle + cycles }
{
    u64::from(cycle) + u64::from(cycles)
}

// Lets the notes that a note schedules wait; each one that can't be stored counts as a start that started
// nothing.
fn ask_all(
    alloc: Global,
    asks: Vec<Ask>,
    at: &Asking,
    pending: &mut Pending,
    not_started: &mut u64,
) -> Result<(), OutOfMemory>
    ensures { OnOk result ((c : Composition) (m : Moment) → clock_of c ≡ times.clock_of at.now.head at.now.total
        → Wait pending.old not_started.old m
        → Wait pending.new not_started.new (all_wanted c at.now.cycle at.now.time asks.items m)) }
{
    for ask in asks {
        let answer = pending.add(alloc, ask, *at)?;
        *not_started = count_after(answer, *not_started);
    }
    Ok(())
}

// Returns the count of starts that started nothing, after the result of scheduling a note.
fn count_after(answer: Added, count: u64) -> u64
    ensures { result ≡ count_after answer count }
{
    match answer {
        Added::Kept => count,
        _ => count.saturating_add(1),
    }
}
