// Which tables the codes of instruments may write.
ghost use Rattle.std.specs.Prelude.{◌≡◌, ◌<◌, ◌||◌, ℕ, false, length, nat_le, ◌&&◌, IfOk, slice_index_or};
ghost use Rattle.std.specs.List.{list_any};
ghost use Rattle.cs_ir.specs.Resources.{reaches};
ghost use Rattle.cs_piece.specs.inner.Marked.{codes_store, is_marked, numbers_end, ops_store, touch_stores};

use crate::tables::NUMBERS_END;
use cs_base::{OutOfMemory, Res};
use cs_ir::{Instrument, Ops, Reach, Touch};
use std::alloc::Global;
use std::marker::Model;

/// Tables that are marked.
#[derive(Drop)]
pub struct Written {
    // Whether all of them are marked.
    any: bool,
    // For each number below 65,536, whether it is marked.
    numbers: Vec<bool>,
}

impl Model for Written {
    ghost use Rattle.std.specs.Prelude.{◌≡◌, length};
    ghost use Rattle.cs_piece.specs.inner.Marked.{Marks};

    ghost Value = { Marks };

    ghost view = { λ w. record { any = w.any; numbers = w.numbers.items } };

    ghost invariant = { λ w. length w.numbers.items ≡ 65536 };
}

/// Returns the tables that the codes of instruments may write, as a note begins or in a control cycle.
pub fn written_by(alloc: Global, instruments: &[Instrument]) -> Result<Written, OutOfMemory>
    ensures { IfOk result (λ w. (n : ℕ) → n < numbers_end → is_marked w n ≡ list_any (codes_store n) instruments.now) }
{
    let mut written = Written {
        any: false,
        numbers: unmarked(alloc, NUMBERS_END)?,
    };
    for instrument in instruments {
        written.mark_codes(instrument);
    }
    Ok(written)
}

// Returns `count` numbers that aren't marked.
fn unmarked(alloc: Global, count: usize) -> Result<Vec<bool>, OutOfMemory>
    ensures long { IfOk result (λ v. length v.items ≡ count) }
    ensures none { IfOk result (λ v. (n : ℕ) → slice_index_or v.items n false ≡ false) }
{
    Ok(vec![in alloc; false; count]?)
}

impl Written {
    /// Returns whether a table is marked.
    pub fn is_marked(&self, number: usize) -> bool
        requires { number < numbers_end }
        ensures { result ≡ is_marked self.now number }
    {
        self.any || self.numbers[number]
    }

    // Marks the tables that the codes of an instrument may write.
    fn mark_codes(&mut self, instrument: &Instrument)
        ensures { (n : ℕ) → n < numbers_end → is_marked self.new n
            ≡ (is_marked self.old n || codes_store n instrument.now) }
    {
        self.mark_ops(&instrument.init().ops);
        self.mark_ops(&instrument.perf().ops);
    }

    // Marks the tables that ops may write.
    fn mark_ops(&mut self, ops: &Ops)
        ensures { (n : ℕ) → n < numbers_end → is_marked self.new n ≡ (is_marked self.old n || ops_store n ops.now) }
    {
        self.mark_touches(&ops.touches().written);
    }

    // Marks the tables among the resources that are touched.
    fn mark_touches(&mut self, touches: &[Touch])
        ensures { (n : ℕ) → n < numbers_end → is_marked self.new n
            ≡ (is_marked self.old n || list_any (touch_stores n) touches.now) }
    {
        for touch in touches {
            self.mark_touch(*touch);
        }
    }

    // Marks what is touched if it is a table.
    fn mark_touch(&mut self, touch: Touch)
        ensures { (n : ℕ) → n < numbers_end → is_marked self.new n ≡ (is_marked self.old n || touch_stores n touch) }
    {
        match touch {
            Touch::One(Res::Table(number)) => mark_span(&mut self.numbers, number, number),
            Touch::Tables(reach) => self.mark(reach),
            _ => {}
        }
    }

    // Marks the tables within a reach.
    fn mark(&mut self, reach: Reach)
        ensures { (n : ℕ) → n < numbers_end → is_marked self.new n ≡ (is_marked self.old n || reaches reach n) }
    {
        match reach {
            Reach::Nothing => {}
            Reach::Any => self.any = true,
            Reach::Span(first, last) => {
                mark_span(&mut self.numbers, first as usize, last as usize);
            }
        }
    }
}

// Marks the numbers from `first` to `last`, both included.
fn mark_span(numbers: &mut [bool], first: usize, last: usize)
    requires { length numbers.old ≡ numbers_end }
    ensures long { length numbers.new ≡ numbers_end }
    ensures marked { (n : ℕ) → n < numbers_end
        → slice_index_or numbers.new n false ≡ (slice_index_or numbers.old n false ||
        (nat_le first n && nat_le n last)) }
{
    let end = last.min(NUMBERS_END - 1) + 1;
    for number in first..end {
        numbers[number] = true;
    }
}
