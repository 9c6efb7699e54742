//! The machine that runs codes: what a note stores from cycle to cycle, and the cells that notes share.
//!
//! The one contract: a `State` on cells represents a machine of the world of voices (`machine_of`,
//! specs/States), and `send`, `send_at` and `turn_off` turn it into the machine that their definitions yield
//! (`Does`). Contracts see registers as a value over the cycle for each register (specs/Registers), the cells
//! of a bank as one function by address (specs/Access), and a `Player` as a unit with the points of its table
//! (specs/Players). Code that touches cells touches only cells of its areas.
//!
//! These may be changed without anyone above noticing: how registers, units and channels lie in memory, which
//! loop fills a row, in which order cells are read and written, and how a table is read.
//!
//! Modules in reading order: `rows` (loops over the frames of a cycle), `quotient` (by a divisor that is
//! held), `pairs` (an operator on two operands over the frames), `registers`, `compute` (operators and
//! functions on registers), `outputs` (the channels); `places` (areas and numbers), `area_rows` (all cells of
//! an area), `zak`, `table` (stores), `live` (reading); `player` (a unit and its table), `gather` (a player
//! on registers); `state` (what a note stores, and what it plays in), `values` (p-fields, the header),
//! `output` (channels, a note's end).
#![tactic(auto)]

mod area_rows;
mod compute;
mod gather;
mod live;
mod output;
mod outputs;
mod pairs;
mod places;
mod player;
mod quotient;
mod registers;
mod rows;
mod state;
mod table;
mod values;
mod zak;

pub use area_rows::{mix_row, read_row, write_row, write_value};
pub use gather::{block, step};
pub use outputs::Outputs;
pub use places::{area_in, area_of, index};
pub use player::Player;
pub use registers::Registers;
pub use state::{NoteSetting, State};
pub use table::store;
pub use values::{field_of, head_value};
pub use zak::clear_places;
