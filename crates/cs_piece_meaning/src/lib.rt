//! The meaning of a piece: the notes that play in each control cycle, and the sound. Definitions and laws, no
//! code.
//!
//! specs/Moments defines the composition and the state of a performance between two steps. specs/Starts
//! defines how notes start and schedule others, and how tables are made; specs/Started which waiting notes
//! start. specs/Course has the steps of a cycle, and all cycles one after another. specs/Counting counts
//! starts, and specs/Bounded defines the pieces that have few. specs/Heard has the frames of the sound,
//! specs/Orders the order of the notes of a cycle. specs/Examples and specs/OrderExamples are small pieces.
//!
//! Its contract has two parts. By `performances_worked_by_hand`, the examples sound as computed by hand. By
//! `notes_of_a_cycle_are_in_order`, the notes of a cycle are ordered by instrument number and then by age;
//! from one cycle to the next a note stays unless it ends or is turned off, and only notes that start are
//! new. A definition may be rephrased if these laws, and the laws of the crates above, still hold.
#![tactic(auto)]

mod laws;
mod order_laws;

pub use laws::performances_worked_by_hand;
pub use order_laws::{
    full_cycles_start_none, no_start_is_lost, none_waits_beyond_its_cycle,
    notes_of_a_cycle_are_in_order, notes_play_in_one_stretch, notes_play_until_their_end,
    orders_worked_by_hand, starts_are_few, waiting_notes_start_in_order,
};
