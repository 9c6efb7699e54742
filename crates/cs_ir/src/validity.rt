// Which codes can be run.
ghost use Rattle.std.specs.Prelude.{◌≡◌, ◌+◌, ◌≤◌, ℕ, true, false, IfOk, IfErr, filter, length};
ghost use Rattle.std.specs.List.{list_all, list_any};
ghost use Rattle.cs_base.specs.Rates.{same_rate};
ghost use Rattle.cs_words.specs.Catalogue.{is_moving};
ghost use Rattle.cs_ir.specs.Flat.{IsLow, flat, further, leaves_room, moved_ops, moved_reg, ops_at, window_of};
ghost use Rattle.cs_ir.specs.{Routines.library_in, inner.Fine.finds_step, inner.Fine.suits};
ghost use Rattle.cs_ir.specs.Validity.{fine_from, has_register, has_value, is_still, may_run_at, runs_with};
ghost use Rattle.cs_ir.specs.Validity.{starts_with, suits_function, take_all, takes_from, valid, writes};

use crate::{Act, Call, Code, Counts, Op, Reg, Routine, Step, Window};
use cs_base::{Rate, Res};
use cs_words::{Func, Letter, Shape, Signature, signature_of};

/// A code that can be run: each op finds the registers, units and places that it names, and reads operands
/// that its act accepts.
#[derive(Drop)]
pub struct ValidCode {
    pub code: Code,
    ghost valid: { valid code ≡ true },
}

impl Code {
    /// Checks that the code can be run. Returns the code itself if it can't.
    pub fn check(self) -> Result<ValidCode, Code>
        ensures ok { IfOk result (λ v. v.code ≡ self) }
        ensures valid { IfOk result (λ v. valid self ≡ true) }
        ensures err { IfErr result (λ c. c ≡ self) }
        ensures invalid { IfErr result (λ c. valid self ≡ false) }
    {
        let (routines, steps) = self.ops.parts();
        if are_fine(routines, steps, &Window::whole(), &self.counts) {
            Ok(ValidCode { code: self })
        } else {
            Err(self)
        }
    }
}

// Whether all ops of these steps in a window are fine, at any place of a code.
#[cycle(fine)]
fn are_fine(routines: &[Routine], steps: &[Step], window: &Window, counts: &Counts) -> bool
    requires { IsLow (length routines.now) window.now }
    ensures { (end place : ℕ) → place + length (flat (library_in routines.now) steps.now) ≤ end
        → result ≡ fine_from counts.now end place
        (moved_ops window.now place (flat (library_in routines.now) steps.now)) }
{
    for at in 0..steps.len() {
        let fine = match &steps[at] {
            Step::Do(op) => is_fine(op, at, window, counts),
            Step::Invoke(call) => is_call_fine(routines, call, window, counts),
        };
        if !fine {
            return false;
        }
    }
    true
}

#[cycle(fine)]
fn is_call_fine(routines: &[Routine], call: &Call, window: &Window, counts: &Counts) -> bool
    requires { IsLow (length routines.now) window.now }
    ensures { (end place : ℕ) → place + length (ops_at (library_in routines.now) call.now.routine) ≤ end
        → result ≡ fine_from counts.now end place (moved_ops (further window.now (window_of call.now)) place
        (ops_at (library_in routines.now) call.now.routine)) }
{
    let number = call.routine as usize;
    match routines.get(number) {
        Some(routine) => are_fine(
            &routines[..number],
            routine.steps(),
            &window.further(call),
            counts,
        ),
        None => true,
    }
}

// Whether an op of a routine is fine in a window. `at` is its place among its routine's steps.
fn is_fine(op: &Op, at: usize, window: &Window, counts: &Counts) -> bool
    requires { leaves_room window.now ≡ true }
    ensures { result ≡ suits counts.now window.now at op.now }
{
    let from = op.from.as_slice();
    (!op.act.writes() || counts.has(window, op.into))
        && counts.has_all(window, from)
        && counts.finds(window, at, op.act)
        && op.act.takes_from(op.into.rate(), from)
}

impl Counts {
    fn has(&self, window: &Window, register: Reg) -> bool
        ensures { result ≡ has_register self.now (moved_reg window.now register) }
    {
        let behind = self
            .registers
            .of(register.kind)
            .saturating_sub(window.begin(register.kind));
        (register.offset as usize) < behind
    }

    fn has_all(&self, window: &Window, registers: &[Reg]) -> bool
        ensures { result ≡ list_all (λ q. has_register self.now (moved_reg window.now q)) registers.now }
    {
        registers.iter().all(|register| self.has(window, *register))
    }

    // Whether the unit of an act exists, and a jump goes to a later step or to the end.
    fn finds(&self, window: &Window, at: usize, act: Act) -> bool
        requires { leaves_room window.now ≡ true }
        ensures { result ≡ finds_step self.now window.now at act }
    {
        match act {
            Act::Start(_, unit) | Act::Unit(_, unit, _) => window.unit(unit) < self.units,
            Act::Jump(to) | Act::Unless(to) => at < to,
            _ => true,
        }
    }
}

impl Act {
    fn writes(self) -> bool
        ensures { result ≡ writes self }
    {
        match self {
            Act::Unit(opcode, _, _) | Act::Zak(opcode, _) => {
                signature_of(opcode).result_count() != 0
            }
            Act::Save(_) | Act::Start(_, _) | Act::Jump(_) | Act::Unless(_) => false,
            Act::Seek | Act::Store(_) => false,
            Act::Out(_) | Act::OutAt | Act::Turnoff | Act::Ask => false,
            _ => true,
        }
    }

    fn takes_from(self, rate: Rate, from: &[Reg]) -> bool
        ensures { result ≡ takes_from self rate from.now }
    {
        match (self, from) {
            (Act::Const(_) | Act::Field(_) | Act::Head(_), []) => true,
            (Act::Jump(_) | Act::Turnoff, []) => true,
            (Act::Load(res), []) => has_value(res) && rate.within(res.rate()),
            (Act::Copy | Act::Neg, [x]) => x.rate().within(rate),
            (Act::Call(function), [x]) => suits_function(function, rate, x.rate()),
            (Act::Save(res), [x]) => has_value(res) && x.rate().within(res.rate()),
            (Act::Unless(_), [x]) => !x.is_audio(),
            (Act::Out(_), [x]) => x.is_audio(),
            (Act::OutAt, [x, y]) => !x.is_audio() && y.is_audio(),
            (Act::Pair(operator), [x, y]) => {
                x.rate().within(rate)
                    && y.rate().within(rate)
                    && (operator.is_arithmetic() || !rate.is_audio())
            }
            (Act::Pick, [c, x, y]) => {
                !c.is_audio()
                    && c.rate().within(rate)
                    && x.rate().within(rate)
                    && y.rate().within(rate)
            }
            (Act::Start(opcode, _), _) => starts_with(&signature_of(opcode), rate, from),
            (Act::Unit(opcode, _, _), _) => {
                let row = signature_of(opcode);
                matches!(row.shape(), Shape::Unit) && runs_with(&row, rate, from)
            }
            (Act::Seek, [x]) => x.rate().is_init(),
            (Act::Store(_), [value, index, table]) => {
                rate.is_audio() == value.is_audio()
                    && rate.is_audio() == index.is_audio()
                    && table.rate().is_init()
            }
            (Act::Zak(opcode, _), _) => {
                let row = signature_of(opcode);
                matches!(
                    row.shape(),
                    Shape::ZakGet(_) | Shape::ZakPut(_) | Shape::ZakMix | Shape::ZakClear(_)
                ) && runs_with(&row, rate, from)
            }
            (Act::Ask, _) => from.len() >= 3 && are_init(from),
            _ => false,
        }
    }
}

// Whether an op may read or write the resource as one value. The points of a table are read only by units
// and written only by stores.
fn has_value(res: Res) -> bool
    ensures { result ≡ has_value res }
{
    !matches!(res, Res::Table(_))
}

fn suits_function(function: Func, rate: Rate, x: Rate) -> bool
    ensures { result ≡ suits_function function rate x }
{
    match function {
        Func::I => rate.is_init() && x.is_control(),
        Func::Cpspch => x.within(rate) && !rate.is_audio(),
        _ => x.within(rate),
    }
}

fn are_init(registers: &[Reg]) -> bool
    ensures { result ≡ list_all is_still registers.now }
{
    registers.iter().all(|register| register.rate().is_init())
}

fn starts_with(row: &Signature, rate: Rate, from: &[Reg]) -> bool
    ensures { result ≡ starts_with row.now rate from.now }
{
    matches!(row.shape(), Shape::Unit)
        && row.takes_settled(from.len())
        && are_init(from)
        && may_run_at(row, rate)
}

fn runs_with(row: &Signature, rate: Rate, from: &[Reg]) -> bool
    ensures { result ≡ runs_with row.now rate from.now }
{
    let free = row.result_count() == 0;
    let bound = if free { Rate::Audio } else { rate };
    take_all(row.fixed(), bound, from) && may_run_at(row, rate)
}

fn may_run_at(row: &Signature, rate: Rate) -> bool
    ensures { result ≡ may_run_at row.now rate }
{
    row.result_count() == 0 || has_rate(row.results(), rate)
}

fn has_rate(rates: &[Rate], rate: Rate) -> bool
    ensures { result ≡ list_any (same_rate rate) rates.now }
{
    rates.iter().any(|other| rate.same(*other))
}

fn take_all(letters: &[Letter], bound: Rate, from: &[Reg]) -> bool
    ensures { result ≡ take_all (filter is_moving letters.now) bound from.now }
{
    let mut place: usize = 0;
    for letter in letters {
        if letter.is_moving() {
            let Some(register) = from.get(place) else {
                return false;
            };
            if !letter.takes(bound, register.rate()) {
                return false;
            }
            place += 1;
        }
    }
    place == from.len()
}
