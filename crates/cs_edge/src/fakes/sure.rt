ghost use Rattle.cs_edge.specs.Told.{Rose};

use crate::{Shelf, Sink, SureShelf, SureSink};

/// The law of the two objects that never fail: between any two of their states, the fault count has not
/// risen.
pub fn sure_never_fail()
    ensures shelf { (before now : SureShelf)
        → ¬ (Rose (⟦<SureShelf as Shelf>⟧.tells before).faults (⟦<SureShelf as Shelf>⟧.tells now).faults) }
    ensures sink { (before now : SureSink)
        → ¬ (Rose (⟦<SureSink as Sink>⟧.tells before).faults (⟦<SureSink as Sink>⟧.tells now).faults) }
{}
