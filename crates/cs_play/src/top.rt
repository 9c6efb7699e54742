// The complete run.
ghost use Rattle.std.specs.Prelude.{◌≤◌, ◌^◌};
ghost use Rattle.cs_command.specs.Words.{texts};
ghost use Rattle.cs_play.specs.{Runs.IsProgramRun, Scene.scene, Scene.sight};

use crate::player::{Alone, Host, play, play_alone};
use crate::preparing::prepare;
use crate::sounding::say;
use cs_edge::{Gate, Shelf, Sink, Tap};
use cs_perform::Counter;
use cs_report::Status;
use std::alloc::Global;
use std::sync::Wait;
use std::thread::Threads;

/// Runs the complete program: reads the command-line arguments, reads the piece that they ask for from the
/// shelf or makes the demo, performs it, writes the sound file into `wav`, passes the mix to each of `taps`,
/// counts the cycles by their receipts in `tally`, and prints the report on `talk`, or the reason why there
/// is none. `IsProgramRun` states what each status means. `tally` has room for 2^42 cycles and notes. As many
/// workers perform as the arguments ask for, but no more than there are processors, or than two if there is
/// one processor; each of them calls `gate` before each note.
pub fn csplay<R: Threads + Wait + Sync, F: Shelf, K: Sink, T: Sink, C: Counter, G: Gate + Sync>(
    rt: &R,
    alloc: Global,
    words: &[String],
    shelf: &mut F,
    wav: &mut K,
    talk: &mut T,
    taps: &mut Vec<Box<dyn Tap>>,
    gate: &G,
    tally: &mut C,
) -> Status
    requires { 2 ^ 42 ≤ C.room tally.old }
    ensures { IsProgramRun (sight F.tells K.tells T.tells C.has_counted (λ t h. stands_for t h) (λ t room. text t room))
        (texts words.now) result
        (scene shelf.old wav.old talk.old taps.old.items tally.old)
        (scene shelf.new wav.new talk.new taps.new.items tally.new) }
{
    let prepared = prepare(alloc, words, shelf, talk);
    let played = play(&Host { rt, alloc, gate }, prepared, wav, taps, tally);
    say(talk, played, taps)
}

/// Runs the complete program with one worker, the caller, whatever number the arguments ask for. It has no
/// runtime, so it starts no thread, waits for no other thread, and returns.
pub fn csplay_alone<F: Shelf, K: Sink, T: Sink, C: Counter, G: Gate>(
    alloc: Global,
    words: &[String],
    shelf: &mut F,
    wav: &mut K,
    talk: &mut T,
    taps: &mut Vec<Box<dyn Tap>>,
    gate: &G,
    tally: &mut C,
) -> Status
    requires { 2 ^ 42 ≤ C.room tally.old }
    ensures { IsProgramRun (sight F.tells K.tells T.tells C.has_counted (λ t h. stands_for t h) (λ t room. text t room))
        (texts words.now) result
        (scene shelf.old wav.old talk.old taps.old.items tally.old)
        (scene shelf.new wav.new talk.new taps.new.items tally.new) }
{
    let prepared = prepare(alloc, words, shelf, talk);
    let played = play_alone(&Alone { alloc, gate }, prepared, wav, taps, tally);
    say(talk, played, taps)
}
