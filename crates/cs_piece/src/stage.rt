// What a performer receives from a setup.
ghost use Rattle.std.specs.Prelude.{◌≡◌, ◌<◌, ℕ, length, pos, slice_get, true, false, IfSome, IfNone, MatchOption};
ghost use Rattle.std.specs.Prelude.{Some, None};
ghost use Rattle.cs_cells.specs.Areas.{IsLaid, limit_passed};
ghost use Rattle.cs_ir.specs.Instruments.{Numbered};
ghost use Rattle.cs_meaning.specs.Core.{Block};
ghost use Rattle.cs_piece_meaning.specs.Bounded.{IsBounded};
ghost use Rattle.cs_piece.specs.{Compositions.areas_in, Ready.IsInstrumentOf, Ready.IsStageOf};
ghost use Rattle.cs_piece.specs.Setups.{AreOfOneSize, composition_of};
ghost use Rattle.cs_rwset.specs.Zones.{AreZones};
ghost use Rattle.cs_tempo.specs.Performable.{IsPerformable};
ghost use Rattle.cs_typed.specs.TypedTree as typed;
ghost use Rattle.cs_voice.specs.declared.stage.Stage.{Stage};

use crate::setup::Setup;
use cs_cells::Footprint;
use cs_ir::Instrument;
use cs_name_laws::notes_touch_what_there_is;
use cs_voice::Stage;

/// What notes are played from: an instrument, or the code outside of instruments, with the footprint of its
/// cycle.
#[derive(Clone, Copy)]
pub struct Playable<'s> {
    pub instrument: &'s Instrument,
    pub foot: &'s Footprint,
}

impl Setup {
    /// For the prover: facts about each setup. It does nothing as it runs.
    pub fn facts(&self)
        ensures performable { IsPerformable self.now.orchestra.head self.now.plot }
        ensures sizes { AreOfOneSize self.now.plot.events }
        ensures bounded { IsBounded (composition_of self.now) }
        ensures areas { self.now.layout ≡ areas_in (typed.orchestra self.now.orchestra) self.now.plot.events }
        ensures laid { IsLaid self.now.layout }
        ensures within { limit_passed self.now.layout ≡ None }
        ensures zones { AreZones self.now.layout self.now.zones }
    {
        let _ = &self.plot;
    }

    /// Returns the stage that the notes of the piece play in, with its tables.
    pub fn stage(&self) -> Stage<'_>
        ensures stage { IsStageOf (composition_of self.now) result }
        ensures layout { result.layout.now ≡ self.now.layout }
        ensures zones { result.zones.now ≡ self.now.zones }
        ensures tables { result.tables.now ≡ self.now.tables }
    {
        Stage {
            head: &self.head,
            layout: &self.layout,
            zones: &self.zoned.zones,
            spaces: self.spaces,
            tables: &self.tables,
        }
    }

    /// Returns the instrument with a number and its footprint, or None if there is no such instrument. The
    /// cost is proportional to the number of instruments, at most 200.
    pub fn instrument(&self, number: i64) -> Option<Playable<'_>>
        ensures { MatchOption result ((composition_of self.now).instrument number ≡ None)
            (λ p. (body : Block) × ((composition_of self.now).instrument number ≡ Some body)
            × (pos p.instrument.now.number ≡ number)
            × ((stage : Stage) → IsStageOf (composition_of self.now) stage → stage.layout.now ≡ self.now.layout
            → stage.zones.now ≡ self.now.zones → IsInstrumentOf stage p.instrument.now p.foot.now body)) }
    {
        notes_touch_what_there_is();
        let instruments = self.lowered.instruments.as_slice();
        match place_of(instruments, number) {
            Some(place) => Some(Playable {
                instrument: &instruments[place],
                foot: &self.zoned.feet[place],
            }),
            None => None,
        }
    }

    /// Returns the code outside of instruments, with its footprint.
    pub fn outside(&self) -> Playable<'_>
        ensures { (stage : Stage) → IsStageOf (composition_of self.now) stage → stage.layout.now ≡ self.now.layout
            → stage.zones.now ≡ self.now.zones
            → IsInstrumentOf stage result.instrument.now result.foot.now (composition_of self.now).outside }
    {
        notes_touch_what_there_is();
        Playable {
            instrument: &self.lowered.zero,
            foot: &self.zoned.outside,
        }
    }
}

// Returns the index of the instrument with a number, or None if there is no such instrument.
fn place_of(instruments: &[Instrument], number: i64) -> Option<usize>
    ensures some { IfSome result (λ place. (place < length instruments.now) × (i : Numbered)
        × (slice_get instruments.now place ≡ Some i) × (pos i.number ≡ number)) }
    ensures none { IfNone result ((k : ℕ) (i : Numbered) → slice_get instruments.now k ≡ Some i
        → pos i.number ≡ number → ⊥) }
{
    for place in 0..instruments.len() {
        if has_number(&instruments[place], number) {
            return Some(place);
        }
    }
    None
}

fn has_number(instrument: &Instrument, number: i64) -> bool
    ensures same { result ≡ true → pos instrument.now.number ≡ number }
    ensures other { result ≡ false → pos instrument.now.number ≡ number → ⊥ }
{
    i64::from(instrument.number()) == number
}
