// Pairs the stops of a section with its held notes, by instrument.
ghost use Rattle.std.specs.Prelude.{◌≡◌, ℕ, List, ◌+◌, ◌-◌, ◌<◌, ◌^◌, ◌++◌, ◌∷◌, [], map, drop, length};
ghost use Rattle.std.specs.Prelude.{slice_get, nat_eq, IfOk, OnOk, Option, Some, None};
ghost use Rattle.std.specs.HashMap.{get};
ghost use Rattle.cs_tempo.specs.inner.Counted.{own_stop, sounding, sounding_after};
ghost use Rattle.cs_tempo.specs.{inner.Stops.Shows, inner.Stops.AreQueues, inner.Stops.ending, inner.Queue.Queue};

use cs_base::OutOfMemory;
use cs_score::{ScoreStmt, ScoreWhat};
use std::alloc::Global;
use std::collections::HashMap;
use std::marker::Model;

/// The stops of one instrument, the number of stops that have passed, and the number of its held notes that
/// sound.
#[derive(Drop)]
pub struct Stops {
    beats: Vec<u64>,
    passed: usize,
    sounding: usize,
}

impl Model for Stops {
    ghost use Rattle.std.specs.Prelude.{drop, length, ◌≤◌};
    ghost use Rattle.cs_tempo.specs.inner.Queue.{Queue};

    ghost Value = { Queue };

    ghost view = { λ s. record { stops = drop s.passed s.beats.items; sounding = s.sounding } };

    ghost invariant = { λ s. s.passed ≤ length s.beats.items };
}

/// The instruments of a section that have stops.
pub type StopsByInstrument = HashMap<u32, Stops>;

impl Stops {
    fn new(alloc: Global) -> Stops
        ensures stops { result.stops ≡ [] }
        ensures sounding { result.sounding ≡ 0 }
    {
        Stops {
            beats: Vec::new(alloc),
            passed: 0,
            sounding: 0,
        }
    }

    fn push(&mut self, beat: u64) -> Result<(), OutOfMemory>
        ensures stops { OnOk result (self.new.stops ≡ self.old.stops ++ beat ∷ []) }
        ensures sounding { OnOk result (self.new.sounding ≡ self.old.sounding) }
    {
        self.beats.push(beat)?;
        Ok(())
    }

    // Handles the start of a held note. Returns the beat of the stop that ends it, or `None` if no stop does.
    fn hold(&mut self) -> Option<u64>
        requires { self.old.sounding < 2 ^ 63 }
        ensures stop { result ≡ slice_get self.old.stops self.old.sounding }
        ensures stops { self.new.stops ≡ self.old.stops }
        ensures sounding { self.new.sounding ≡ self.old.sounding + 1 }
    {
        let stop = self.beats.get(self.passed + self.sounding).copied();
        self.sounding += 1;
        stop
    }

    // Handles a stop.
    fn pass(&mut self)
        ensures stops { self.new.stops ≡ drop 1 self.old.stops }
        ensures sounding { self.new.sounding ≡ self.old.sounding - 1 }
    {
        self.passed = (self.passed + 1).min(self.beats.len());
        self.sounding = self.sounding.saturating_sub(1);
    }
}

/// Collects the stops of the turns of a section, by instrument.
pub fn stops_by_instrument(
    alloc: Global,
    order: &[&ScoreStmt],
) -> Result<StopsByInstrument, OutOfMemory>
    ensures { IfOk result (λ queues. AreQueues queues [] (map (λ s. s.now) order.now)) }
{
    let mut queues = HashMap::new(alloc);
    for statement in order {
        add_own_stop(&mut queues, alloc, &statement.what)?;
    }
    Ok(queues)
}

fn add_own_stop(
    queues: &mut StopsByInstrument,
    alloc: Global,
    what: &ScoreWhat,
) -> Result<(), OutOfMemory>
    ensures { OnOk result ((n : ℕ) (stops : List ℕ) → Shows (get nat_eq queues.old n) stops 0
        → Shows (get nat_eq queues.new n) (stops ++ own_stop n what.now) 0) }
{
    match what {
        ScoreWhat::Stop { instr, at } => {
            let stops = queues.entry(*instr)?.or_insert(Stops::new(alloc));
            stops.push(*at)
        }
        _ => Ok(()),
    }
}

/// Handles the turn of a statement. If it is a held note, returns the beat of the stop that ends it.
pub fn take_turn(queues: &mut StopsByInstrument, what: &ScoreWhat) -> Option<u64>
    requires { (n : ℕ) (queue : Queue) → get nat_eq queues.old n ≡ Some queue → queue.sounding < 2 ^ 63 }
    ensures stop { (stops : ℕ → List ℕ) (sounding : ℕ → ℕ)
        → ((n : ℕ) → Shows (get nat_eq queues.old n) (stops n) (sounding n))
        → result ≡ ending what.now stops sounding }
    ensures queues { (n : ℕ) (stops : List ℕ) (sounding : ℕ)
        → Shows (get nat_eq queues.old n) (own_stop n what.now ++ stops) sounding
        → Shows (get nat_eq queues.new n) stops (sounding_after n what.now sounding) }
{
    match what {
        ScoreWhat::Hold { instr, .. } => queues.get_mut(instr)?.hold(),
        ScoreWhat::Stop { instr, .. } => {
            if let Some(stops) = queues.get_mut(instr) {
                stops.pass();
            }
            None
        }
        _ => None,
    }
}
