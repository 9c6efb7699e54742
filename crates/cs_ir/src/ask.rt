// The note that a note schedules.
ghost use Rattle.std.specs.Prelude.{◌≡◌, IfOk};
ghost use Rattle.cs_ir.specs.Asks.{ask_of, value_at};

use cs_base::{GREATEST_FIELD, Num, Nums, OutOfMemory};
use std::alloc::Global;

/// A note that another note schedules as it begins.
#[derive(Drop)]
pub struct Ask {
    /// The number of its instrument.
    pub number: i64,
    /// The time from now until it begins, in seconds.
    pub when: Num,
    /// Its duration in seconds.
    pub dur: Num,
    /// Its p-fields from p4 on, up to p100. No text reads a later one.
    pub more: Nums,
}

impl Ask {
    /// The note that these values describe. A missing value counts as 0.
    pub fn of(alloc: Global, values: &[Num]) -> Result<Ask, OutOfMemory>
        ensures { IfOk result (λ a. a ≡ ask_of values.now) }
    {
        let more = values.iter().take(GREATEST_FIELD).skip(3).copied();
        Ok(Ask {
            number: value_at(values, 0).whole_below(),
            when: value_at(values, 1),
            dur: value_at(values, 2),
            more: Nums::from_vec(more.collect(alloc)?),
        })
    }
}

fn value_at(values: &[Num], place: usize) -> Num
    ensures { result ≡ value_at values.now place }
{
    values.get(place).copied().unwrap_or(Num::exact(0))
}
