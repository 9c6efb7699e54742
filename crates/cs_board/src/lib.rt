//! The board of a control cycle. Workers claim notes on the board, run them and finish them, in any order
//! that the board's words allow.
//!
//! The one contract (`Board::begin`, `Board::end`): whatever the interleaving of the seats' steps, once every
//! other seat was joined, the board holds the jobs and the cells that result when the notes of its cycle run
//! one by one in serial order. The invariant between any two steps is the rule `Always`, in plain data:
//! either a cycle of some plan is being played and all the facts in `Holds` are true, or the board rests;
//! each kind of step preserves it. `rule_laws` follow from `Holds`: each earlier conflicting note is Done
//! when a note begins, no two workers run the same note, and none is lost.
//!
//! These may change without anyone above noticing: the order in which `claim` tries the notes, how a seat
//! waits for a note, how words are numbered and how the facts are grouped. The words, the views and what each
//! kind of step lets a seat know may not. In reading order: `words`, `view`, `plays`, `laws` (the rule);
//! `board`, `begin`, `steps`, `claim`, `wait`, `bank`, `run`, `finish`, `seats`.
#![tactic(auto)]

mod bank;
mod begin;
mod board;
mod claim;
mod finish;
mod laws;
mod plays;
mod run;
mod seats;
mod steps;
mod view;
mod wait;
mod words;

pub use begin::Parts;
pub use board::{Berths, Board, BoardSeat, Sitting};
pub use laws::rule_laws;
pub use plays::{
    Begin, Claim, Close, End, Finish, Gather, Give, Key, Lay, Leave, Look, LookStatus, LookTurn,
    Open, Reach, Read, Rule, Set, Split, Take, Turn, Watch,
};
pub use view::{Berth, Doing, Plan, Spot, Still, View};
pub use wait::Patience;
pub use words::{AVAILABLE, CLOSED, DONE, IDLE, IN_PROGRESS, WAITING, WATCHED};
