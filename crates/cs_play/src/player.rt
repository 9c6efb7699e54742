// The performer of a piece that was prepared.
ghost use Rattle.std.specs.Prelude.{◌≡◌, ◌≤◌, ◌^◌, min, IfOk};
ghost use Rattle.cs_perform.specs.Performances.{PerformsPiece, lent, lent_sight, request_of};
ghost use Rattle.cs_play.specs.Endings.{lines_of, order_of, output_of, request_in};
ghost use Rattle.cs_arguments.specs.Orders.{asked_in};
ghost use Rattle.cs_piece.specs.Setups.{composition_of};
ghost use Rattle.cs_play.specs.inner.Sounding.{HasPlayed};
ghost use Rattle.cs_source.specs.Loaded.{FitsFile};

use crate::preparing::Prepared;
use cs_arguments::Order;
use cs_edge::{Gate, Sink, Tap};
use cs_perform::{
    Counter, Crew, Outcome, Output, Performance, PlayFault, TurnLines, perform, perform_alone,
    perform_pool,
};
use cs_pool::crew_size;
use cs_report::Status;
use std::alloc::Global;
use std::sync::Wait;
use std::thread::Threads;

/// The source of workers, and the gate that each of them calls before it runs a note.
#[derive(Drop)]
pub(crate) struct Host<'r, R, G> {
    pub rt: &'r R,
    pub alloc: Global,
    pub gate: &'r G,
}

/// The caller without a crew, and the gate that it calls before each note.
#[derive(Drop)]
pub(crate) struct Alone<'g, G> {
    pub alloc: Global,
    pub gate: &'g G,
}

/// The result of a performance, or the fact that there was none.
#[derive(Drop)]
pub(crate) enum Played {
    /// A piece was performed, with this result.
    Piece(Result<Outcome, PlayFault>),
    /// There was no piece. This was printed, and this is its status.
    Nothing(Status),
}

/// Performs what was prepared with as many workers as the arguments ask for, but no more than there are
/// processors, or than two if there is one processor. With one worker the caller performs it without a crew,
/// unless the arguments ask for a crew that stays. `tally` has room for 2^42 cycles and notes.
pub(crate) fn play<R: Threads + Wait + Sync, G: Gate + Sync, K: Sink, C: Counter>(
    host: &Host<'_, R, G>,
    prepared: Result<Prepared<'_>, Status>,
    wav: &mut K,
    taps: &mut Vec<Box<dyn Tap>>,
    tally: &mut C,
) -> Played
    requires room { 2 ^ 42 ≤ C.room tally.old }
    requires fits { IfOk prepared (λ p. FitsFile p.order.width p.setup) }
    ensures { HasPlayed (lent_sight (λ t h. stands_for t h) K.tells C.has_counted) prepared.entry
        (lent wav.old taps.old.items tally.old) (lent wav.new taps.new.items tally.new) result }
{
    match prepared {
        Ok(piece) => Played::Piece(play_piece(host, &piece, wav, taps, tally)),
        Err(status) => Played::Nothing(status),
    }
}

/// Performs what was prepared with one worker, the caller, whatever number the arguments ask for.
pub(crate) fn play_alone<G: Gate, K: Sink, C: Counter>(
    alone: &Alone<'_, G>,
    prepared: Result<Prepared<'_>, Status>,
    wav: &mut K,
    taps: &mut Vec<Box<dyn Tap>>,
    tally: &mut C,
) -> Played
    requires room { 2 ^ 42 ≤ C.room tally.old }
    requires fits { IfOk prepared (λ p. FitsFile p.order.width p.setup) }
    ensures { HasPlayed (lent_sight (λ t h. stands_for t h) K.tells C.has_counted) prepared.entry
        (lent wav.old taps.old.items tally.old) (lent wav.new taps.new.items tally.new) result }
{
    match prepared {
        Ok(piece) => Played::Piece(play_piece_alone(alone, &piece, wav, taps, tally)),
        Err(status) => Played::Nothing(status),
    }
}

fn play_piece<R: Threads + Wait + Sync, G: Gate + Sync, K: Sink, C: Counter>(
    host: &Host<'_, R, G>,
    piece: &Prepared<'_>,
    wav: &mut K,
    taps: &mut Vec<Box<dyn Tap>>,
    tally: &mut C,
) -> Result<Outcome, PlayFault>
    requires room { 2 ^ 42 ≤ C.room tally.old }
    requires fits { FitsFile piece.now.order.width piece.now.setup }
    ensures { PerformsPiece (lent_sight (λ t h. stands_for t h) K.tells C.has_counted)
        (request_in (asked_in piece.now.order) (composition_of piece.now.setup) piece.now.setup.orchestra.head)
        (lent wav.old taps.old.items tally.old) (lent wav.new taps.new.items tally.new) result }
{
    let workers = workers_of(host.rt, piece.order.workers.number());
    let performance = performance_of(host.alloc, piece);
    if workers == 1 && !piece.order.pool {
        return perform_alone(&performance, host.gate, wav, taps, tally);
    }
    let crew = Crew::new(host.rt, workers, host.gate);
    if piece.order.pool {
        return perform_pool(&performance, &crew, wav, taps, tally);
    }
    perform(&performance, &crew, wav, taps, tally)
}

fn play_piece_alone<G: Gate, K: Sink, C: Counter>(
    alone: &Alone<'_, G>,
    piece: &Prepared<'_>,
    wav: &mut K,
    taps: &mut Vec<Box<dyn Tap>>,
    tally: &mut C,
) -> Result<Outcome, PlayFault>
    requires room { 2 ^ 42 ≤ C.room tally.old }
    requires fits { FitsFile piece.now.order.width piece.now.setup }
    ensures { PerformsPiece (lent_sight (λ t h. stands_for t h) K.tells C.has_counted)
        (request_in (asked_in piece.now.order) (composition_of piece.now.setup) piece.now.setup.orchestra.head)
        (lent wav.old taps.old.items tally.old) (lent wav.new taps.new.items tally.new) result }
{
    let performance = performance_of(alone.alloc, piece);
    perform_alone(&performance, alone.gate, wav, taps, tally)
}

// Returns the number of workers that play: at most `asked` and the number of processors, but two if two are
// asked for.
fn workers_of<R: Threads>(rt: &R, asked: u32) -> u32
    requires { 1 ≤ asked }
    ensures { (1 ≤ result) × (result ≤ asked) × (min 2 asked ≤ result) }
{
    crew_size(rt, asked).max(asked.min(2))
}

// Returns what the performer is to do.
fn performance_of<'p>(alloc: Global, piece: &'p Prepared<'_>) -> Performance<'p>
    ensures setup { result.setup.now ≡ piece.now.setup }
    ensures order { result.order ≡ order_of (asked_in piece.now.order) }
    ensures request { request_of result
        ≡ request_in (asked_in piece.now.order) (composition_of piece.now.setup) piece.now.setup.orchestra.head }
{
    Performance {
        alloc,
        setup: &piece.setup,
        order: performing(&piece.order),
        name: piece.order.sound_file,
    }
}

fn performing(order: &Order<'_>) -> cs_perform::PerformanceOrder
    ensures { result ≡ order_of (asked_in order.now) }
{
    cs_perform::PerformanceOrder {
        output: output_of(order.silent),
        width: order.width,
        turns: lines_of(order.turns),
    }
}

fn output_of(silent: bool) -> Output
    ensures { result ≡ output_of silent }
{
    if silent {
        Output::Nothing
    } else {
        Output::SoundFile
    }
}

fn lines_of(turns: bool) -> TurnLines
    ensures { result ≡ lines_of turns }
{
    if turns {
        TurnLines::Told
    } else {
        TurnLines::Untold
    }
}
