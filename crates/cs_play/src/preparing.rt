// Everything before a performance: arguments and texts are read, and compiled or refused.
ghost use Rattle.std.specs.Prelude.{◌≡◌, List, Ok, Some, false, true, IfErr, IfOk, OnOk};
ghost use Rattle.cs_arguments.specs.{Orders.asked_in, Orders.piece_in, Reading.Asked, Reading.Text, Reading.reading};
ghost use Rattle.cs_command.specs.Words.{texts};
ghost use Rattle.cs_play.specs.Preparing.{IsPrepared, IsReadFor, IsUnprepared};
ghost use Rattle.cs_play.specs.inner.Faulted.{IsNotLoaded, unread_status};
ghost use Rattle.cs_piece.specs.Setups.{composition_of};
ghost use Rattle.cs_source.specs.Loaded.{FitsFile, IsLoaded, WasRead};

use cs_arguments::Order;
use cs_command::{Unread, read};
use cs_edge::{Shelf, Sink};
use cs_piece::Setup;
use cs_report::{Status, say_end};
use cs_source::{LoadFault, load};
use std::alloc::Global;

/// A piece that can be performed.
#[derive(Drop)]
pub struct Prepared<'w> {
    /// What the arguments ask for.
    pub order: Order<'w>,
    /// Everything that the piece needs to be performed.
    pub setup: Setup,
}

/// Returns whether the arguments ask for one worker that doesn't stay, or have no reading; then a run of
/// `csplay_alone` is the complete run. Returns false if memory runs out.
pub fn asks_for_one(alloc: Global, words: &[String]) -> bool
    ensures { result ≡ true → (asked : Asked) → reading (texts words.now) ≡ Some asked
        → (asked.workers ≡ 1) × (asked.pool ≡ false) }
{
    match read(alloc, words) {
        Ok(order) => order.workers.number() == 1 && !order.pool,
        Err(Unread::Usage) => true,
        Err(Unread::OutOfMemory) => false,
    }
}

/// Does everything before a performance: reads the command-line arguments, reads the piece that they ask for
/// from the shelf or makes the demo, and compiles it. If there is no piece, prints the reason on `talk` and
/// returns its status: Usage, ShelfFault, one of the four refusals or OutOfMemory (`IsUnprepared`). It has no
/// runtime, so it waits for no worker.
pub fn prepare<'w, F: Shelf, T: Sink>(
    alloc: Global,
    words: &'w [String],
    shelf: &mut F,
    talk: &mut T,
) -> Result<Prepared<'w>, Status>
    ensures prepared { IfOk result (IsPrepared F.tells (texts words.entry.now) shelf.old shelf.new) }
    ensures within { IfOk result (λ p. FitsFile p.order.width p.setup) }
    ensures unprepared { IfErr result (λ s. IsUnprepared F.tells s (texts words.entry.now) shelf.old shelf.new
        (T.tells talk.old) (T.tells talk.new)) }
    ensures talk { OnOk result (talk.new ≡ talk.old) }
    ensures shelf { IsReadFor F.tells (texts words.entry.now) shelf.old shelf.new }
{
    let order = match read(alloc, words) {
        Ok(order) => order,
        Err(unread) => return Err(say_end(talk, status_of(unread), "")),
    };
    match load_for(alloc, &order, shelf, talk) {
        Ok(setup) => Ok(Prepared { order, setup }),
        Err(status) => Err(status),
    }
}

fn status_of(unread: Unread) -> Status
    ensures { result ≡ unread_status unread }
{
    match unread {
        Unread::Usage => Status::Usage,
        Unread::OutOfMemory => Status::OutOfMemory,
    }
}

// Loads the piece that the arguments ask for, or prints why there is none.
fn load_for<F: Shelf, T: Sink>(
    alloc: Global,
    order: &Order<'_>,
    shelf: &mut F,
    talk: &mut T,
) -> Result<Setup, Status>
    ensures loaded { IfOk result (λ s. IsLoaded (F.tells shelf.old) (F.tells shelf.new) order.now.width
        (piece_in order.now.source) (Ok (composition_of s))) }
    ensures within { IfOk result (λ s. FitsFile order.now.width s) }
    ensures unprepared { (words : List Text) → reading words ≡ Some (asked_in order.now)
        → IfErr result (λ s. IsUnprepared F.tells s words shelf.old shelf.new (T.tells talk.old) (T.tells talk.new)) }
    ensures talk { OnOk result (talk.new ≡ talk.old) }
    ensures shelf { WasRead (F.tells shelf.old) (F.tells shelf.new) (piece_in order.now.source) }
{
    match load(alloc, shelf, &order.source, order.width) {
        Ok(setup) => Ok(setup),
        Err(stop) => Err(say_fault_of_load(talk, stop)),
    }
}

// Prints why there is no piece.
fn say_fault_of_load<T: Sink>(talk: &mut T, stop: LoadFault<'_>) -> Status
    ensures { IsNotLoaded stop.entry result (T.tells talk.old) (T.tells talk.new) }
{
    match stop {
        LoadFault::Unread(name) => say_end(talk, Status::ShelfFault, name),
        LoadFault::Refused(refused) => say_end(talk, Status::of_refusal(refused), ""),
        LoadFault::OutOfMemory => say_end(talk, Status::OutOfMemory, ""),
    }
}
