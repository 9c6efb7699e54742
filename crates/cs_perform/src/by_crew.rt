// A performance with a crew, whose helpers are threads of a scope that lasts for the performance.
ghost use Rattle.std.specs.Prelude.{◌≡◌};
ghost use Rattle.cs_perform.specs.Performances.{PerformsPiece, lent, lent_sight, request_of};
ghost use Rattle.cs_perform.specs.inner.Crews.{HasPlace};

use crate::counter::Counter;
use crate::loan::Loan;
use crate::order::{Outcome, Performance, PlayFault};
use crate::performance::go_on;
use crate::sounder::Ensemble;
use crate::stand::{NoteRow, Stand};
use cs_edge::{Gate, OpenGate, Sink, Tap};
use cs_pool::{Crew, Pool};
use std::sync::Wait;
use std::thread;
use std::thread::Threads;

// The gate that the crew calls before each row of notes; each row calls the caller's gate before each note.
static OPEN: OpenGate = OpenGate {};

/// Performs a piece with a crew whose helpers are threads of a separate scope, and have ended when it
/// returns. What was lent comes back.
pub(crate) fn play_in_scope<'a, K: Sink, C: Counter, R: Threads + Wait + Sync, G: Gate + Sync>(
    performance: &Performance<'_>,
    crew: &Crew<'_, R, G>,
    loan: Loan<'a, K, C>,
) -> (Result<Outcome, PlayFault>, Loan<'a, K, C>)
    requires { HasPlace performance.now.setup.now performance.now.order (C.room loan.tally.now) }
    ensures same { (result.1.wav.ghost_name ≡ loan.entry.wav.ghost_name)
        × (result.1.taps.ghost_name ≡ loan.entry.taps.ghost_name)
        × (result.1.tally.ghost_name ≡ loan.entry.tally.ghost_name) }
    ensures performed { PerformsPiece (lent_sight (λ t h. stands_for t h) K.tells C.has_counted)
        (request_of performance.now) (lent loan.entry.wav.now loan.entry.taps.now.items loan.entry.tally.now)
        (lent result.1.wav.now result.1.taps.now.items result.1.tally.now) result.0 }
{
    thread::scope(
        thread::scope_env(),
        crew.rt,
        move |scope|
            requires { HasPlace performance.now.setup.now performance.now.order (C.room loan.tally.now) }
            ensures same { (result.1.wav.ghost_name ≡ loan.entry.wav.ghost_name)
                × (result.1.taps.ghost_name ≡ loan.entry.taps.ghost_name)
                × (result.1.tally.ghost_name ≡ loan.entry.tally.ghost_name) }
            ensures performed { PerformsPiece (lent_sight (λ t h. stands_for t h) K.tells C.has_counted)
                (request_of performance.entry.now)
                (lent loan.entry.wav.now loan.entry.taps.now.items loan.entry.tally.now)
                (lent result.1.wav.now result.1.taps.now.items result.1.tally.now) result.0 }
        {
            // The loan is captured as one value, as the clauses name it.
            let mut loan = loan;
            let mut pool = Pool::new(crew.rt, scope, performance.alloc, crew.workers, &OPEN);
            let played = play_by_pool(performance, crew.gate, &mut pool, &mut loan);
            pool.close();
            (played, loan)
        },
    )
}

// Performs a piece with a standing crew.
fn play_by_pool<'t, K: Sink, C: Counter, R: Wait, G: Gate>(
    performance: &Performance<'t>,
    gate: &'t G,
    pool: &mut Pool<'_, NoteRow<'t, G>, R, OpenGate>,
    loan: &mut Loan<'_, K, C>,
) -> Result<Outcome, PlayFault>
    requires { HasPlace performance.now.setup.now performance.now.order (C.room loan.old.tally.now) }
    ensures performed { PerformsPiece (lent_sight (λ t h. stands_for t h) K.tells C.has_counted)
        (request_of performance.now) (lent loan.old.wav.now loan.old.taps.now.items loan.old.tally.now)
        (lent loan.new.wav.now loan.new.taps.now.items loan.new.tally.now) result }
    ensures same { (loan.new.wav.ghost_name ≡ loan.old.wav.ghost_name)
        × (loan.new.taps.ghost_name ≡ loan.old.taps.ghost_name)
        × (loan.new.tally.ghost_name ≡ loan.old.tally.ghost_name) }
{
    let Ok(stand) = Stand::new(performance.alloc, performance.setup, gate) else {
        return Err(PlayFault::OutOfMemory);
    };
    let stand = Some(stand);
    go_on(performance, Ensemble { pool, stand }, loan)
}
