// The start and the duration of a note that another note schedules.
ghost use Rattle.std.specs.Prelude.{◌≡◌, ◌<◌, ◌^◌, IfOk};
ghost use Rattle.cs_sched.specs.Times.{begins_in, clock_of, cycle_after, ends_in, fields_of, from_now, lasts};
ghost use Rattle.cs_sched.specs.Times.{nanoseconds};

use cs_base::{Head, Num, Nums, ONE, OutOfMemory};
use cs_ir::Ask;
use cs_time::cycle_of;
use std::alloc::Global;

/// A scheduled note.
#[derive(Drop)]
pub struct Due {
    /// The control cycle in which it begins, counted from the start of the piece.
    pub cycle: u32,
    /// Its length in control cycles. If it is 0, the note has only its initialisation pass.
    pub cycles: u32,
    /// The number of its instrument.
    pub number: i64,
    /// Its p-fields from p1 on; p2 and p3 are in seconds.
    pub fields: Nums,
}

/// The time from now on in 65,536ths of a second. A negative time counts as 0.
pub(crate) fn from_now(when: Num) -> u64
    ensures value { result ≡ from_now when }
    ensures small { result < 2 ^ 47 }
{
    when.raw().max(0).unsigned_abs()
}

/// The cycle in which a note begins that is scheduled in the cycle `now`.
pub(crate) fn begins_in(head: &Head, now: u32, ask: &Ask) -> u128
    ensures value { result ≡ begins_in (clock_of head.now 0) now ask.now }
    ensures small { result < 2 ^ 65 }
{
    cycle_after(head, now, from_now(ask.when))
}

/// The number of cycles that it lasts, in a piece of `total` cycles.
pub(crate) fn lasts(head: &Head, now: u32, total: u32, ask: &Ask) -> u32
    ensures { result ≡ lasts (clock_of head.now total) now ask.now }
{
    if ask.dur.raw() == 0 {
        return 0;
    }
    let begins = begins_in(head, now, ask);
    let ends = ends_in(head, now, ask);
    ends.min(u128::from(total)).saturating_sub(begins) as u32
}

fn ends_in(head: &Head, now: u32, ask: &Ask) -> u128
    ensures { result ≡ ends_in (clock_of head.now 0) now ask.now }
{
    let after = from_now(ask.when) + from_now(ask.dur);
    cycle_after(head, now, after).max(begins_in(head, now, ask) + 1)
}

// The cycle that is reached `raw` 65,536ths of a second after the start of cycle `now`.
fn cycle_after(head: &Head, now: u32, raw: u64) -> u128
    requires { raw < 2 ^ 48 }
    ensures value { result ≡ cycle_after (clock_of head.now 0) now raw }
    ensures small { result < 2 ^ 65 }
{
    u128::from(now) + u128::from(cycle_of(nanoseconds(raw), head.sr, head.ksmps))
}

fn nanoseconds(raw: u64) -> u64
    requires { raw < 2 ^ 48 }
    ensures value { result ≡ nanoseconds raw }
    ensures small { result < 2 ^ 63 }
{
    (u128::from(raw) * 1_000_000_000 / ONE as u128) as u64
}

/// Returns the p-fields of the note that a note with p2 `time` schedules.
pub(crate) fn fields_of(alloc: Global, time: Num, ask: &Ask) -> Result<Nums, OutOfMemory>
    ensures { IfOk result (λ fields. fields ≡ fields_of time ask.now) }
{
    let first = [
        Num::of_whole(ask.number),
        time.add(Num::exact(ask.when.raw().max(0))),
        ask.dur,
    ];
    let mut fields = first.to_vec(alloc)?;
    fields.extend_from_slice(ask.more.as_slice())?;
    Ok(Nums::from_vec(fields))
}
