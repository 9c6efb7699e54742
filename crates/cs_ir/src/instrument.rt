// Instruments and their numbers.
ghost use Rattle.std.specs.{Prelude.◌≡◌, Prelude.true, Prelude.length, Prelude.IfOk, Prelude.eqb, List.IsDistinct};
ghost use Rattle.std.specs.List.Sorted.{IsPermutation, IsStrictlyIncreasing};
ghost use Rattle.cs_ir.specs.{Instruments.numbers_of, Validity.fine_from, Validity.valid};

use crate::{Code, Counts, Ops, ValidCode};
use cs_base::OutOfMemory;
use std::alloc::Global;
use std::marker::Model;
use std::sync::Arc;

/// The two codes of an instrument: one runs as a note begins, the other in each control cycle, over the same
/// registers and units.
#[derive(Drop)]
pub struct Body {
    init: ValidCode,
    perf: ValidCode,
    ghost counts: { init.code.counts ≡ perf.code.counts },
}

impl Body {
    /// The body with these ops, which are known to be valid.
    pub fn new(init: Ops, perf: Ops, counts: Counts) -> Body
        requires init { fine_from counts (length init) 0 init ≡ true }
        requires perf { fine_from counts (length perf) 0 perf ≡ true }
        ensures init { result.init.code ≡ record { ops = init; counts = counts } }
        ensures perf { result.perf.code ≡ record { ops = perf; counts = counts } }
    {
        Body {
            init: ValidCode {
                code: Code { ops: init, counts },
            },
            perf: ValidCode {
                code: Code { ops: perf, counts },
            },
        }
    }
}

/// An instrument under one of its numbers. All numbers of a body share its codes.
#[derive(Drop)]
pub struct Instrument {
    number: u32,
    body: Arc<Body, Global>,
}

impl Model for Instrument {
    ghost use Rattle.cs_ir.specs.Instruments.{Numbered};

    ghost Value = { Numbered };

    ghost view = { λ i. record { number = i.number; init = i.body.value.init.code; perf = i.body.value.perf.code } };
}

impl Instrument {
    /// A body under a number.
    pub fn new(number: u32, body: &Arc<Body, Global>) -> Result<Instrument, OutOfMemory>
        ensures number { IfOk result (λ i. i.number ≡ number) }
        ensures init { IfOk result (λ i. i.init ≡ body.now.value.init.code) }
        ensures perf { IfOk result (λ i. i.perf ≡ body.now.value.perf.code) }
    {
        Ok(Instrument {
            number,
            body: Arc::try_clone(body)?,
        })
    }

    /// The instrument's number.
    pub fn number(&self) -> u32
        ensures { result ≡ self.now.number }
    {
        self.number
    }

    /// The code that a note runs as it begins.
    pub fn init(&self) -> &Code
        ensures same { result.now ≡ self.now.init }
        ensures valid { valid result.now ≡ true }
        ensures counts { result.now.counts ≡ self.now.perf.counts }
    {
        &self.body.init.code
    }

    /// The code that a note runs in each control cycle.
    pub fn perf(&self) -> &Code
        ensures same { result.now ≡ self.now.perf }
        ensures valid { valid result.now ≡ true }
        ensures counts { result.now.counts ≡ self.now.init.counts }
    {
        &self.body.perf.code
    }
}

/// The instruments of an orchestra, in ascending order of their numbers.
#[derive(Drop)]
pub struct Instruments {
    items: Vec<Instrument>,
}

impl Model for Instruments {
    ghost use Rattle.std.specs.{Prelude.List, List.Sorted.IsStrictlyIncreasing};
    ghost use Rattle.cs_ir.specs.Instruments.{Numbered, numbers_of};

    ghost Value = { List Numbered };

    ghost view = { λ l. l.items.items };

    ghost invariant = { λ l. IsStrictlyIncreasing (numbers_of l.items.items) };
}

impl Instruments {
    /// Sorts instruments by number. No two of them have the same number.
    pub fn of(mut items: Vec<Instrument>) -> Instruments
        requires { IsDistinct eqb (numbers_of items.items) }
        ensures same { IsPermutation items.items result }
        ensures ascending { IsStrictlyIncreasing (numbers_of result) }
    {
        items.sort_unstable_by_key(|item: &Instrument| item.number());
        Instruments { items }
    }

    /// All instruments, in ascending order of their numbers.
    pub fn as_slice(&self) -> &[Instrument]
        ensures same { result.now ≡ self.now }
        ensures ascending { IsStrictlyIncreasing (numbers_of self.now) }
    {
        &self.items
    }
}
