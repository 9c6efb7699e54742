//! The plot of a piece: the control cycles in which each note of a score starts and ends.
//!
//! Its one contract: `schedule` returns the plot of a score (`plot_of`), which can be performed
//! (`IsPerformable`), the first limit that the score exceeds (`limit_of`), or an out-of-memory error. All
//! times are exact (cs_time). The way turns are sorted, stops paired and notes counted may be changed without
//! anyone above noticing.
//!
//! In reading order: `clock` (the times of a section), `section`, `order`, `pairing`, `fields` and `plot`
//! (the types), `events`, `limits`, `active`, `scheduling`, `laws`.
#![tactic(auto)]

mod active;
mod clock;
mod events;
mod fields;
mod laws;
mod limits;
mod order;
mod pairing;
mod plot;
mod scheduling;
mod section;

pub use fields::NoteFields;
pub use laws::{
    orders_worked_by_hand, pairings_worked_by_hand, plot_worked_by_hand, plots_are_in_order,
    scores_within_limits_are_performable, turns_are_in_order,
};
pub use plot::{Event, EventAct, Events, Plot};
pub use scheduling::schedule;
