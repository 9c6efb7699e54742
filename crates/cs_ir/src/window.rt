// Windows: where the registers and units of a routine begin while its steps are performed; and ops in a
// window.
ghost use Rattle.std.specs.Prelude.{◌≡◌, ◌+◌, ◌<◌, ◌∷◌, [], ℕ, length, slice_get, true};
ghost use Rattle.std.specs.List.{list_all};
ghost use Rattle.cs_ir.specs.Placed.{regs_read, there};
ghost use Rattle.cs_ir.specs.Flat.{IsLow, begin_of, further, is_small, leaves_room, moved_reg, no_window, window_of};

use crate::{Call, KINDS, Kind, Op, Reg};
use std::marker::Model;

/// The first register of each kind and the first unit of a routine, within the note's registers and units.
/// Contracts see the first local variable of each rate, the first kept value and the first unit. Routines
/// share temporaries.
#[derive(Clone, Copy)]
pub struct Window {
    /// Indexed by kind; 0 for temporaries.
    begins: [usize; KINDS],
    unit: usize,
}

impl Model for Window {
    ghost use Rattle.std.specs.Prelude.{◌≡◌};
    ghost use Rattle.cs_ir.specs.{Flat.Begins, inner.Windows.numbers, inner.Windows.seen};

    ghost Value = { Begins };

    ghost view = { λ w. seen w.begins w.unit };

    ghost inverse = { λ w. record { begins = numbers w; unit = w.unit } };

    ghost invariant = { λ w. w.begins ≡ numbers (seen w.begins w.unit) };
}

impl Window {
    /// The window of a complete code: everything begins at 0.
    pub fn whole() -> Window
        ensures { result ≡ no_window }
    {
        Window {
            begins: [0; KINDS],
            unit: 0,
        }
    }

    /// The window of the routine that a call in this window invokes.
    pub fn further(&self, call: &Call) -> Window
        requires { leaves_room self.now ≡ true }
        ensures window { result ≡ further self.now (window_of call.now) }
        ensures low { (depth inner : ℕ) → IsLow depth self.now → inner < depth → IsLow inner result }
    {
        Window {
            begins: [
                self.begins[0] + call.locals.init as usize,
                self.begins[1] + call.locals.control as usize,
                self.begins[2] + call.kept as usize,
                0,
                0,
                self.begins[5] + call.locals.audio as usize,
                0,
            ],
            unit: self.unit + call.unit as usize,
        }
    }

    /// The number of the first register of a kind.
    pub(crate) fn begin(&self, kind: Kind) -> usize
        ensures { result ≡ begin_of self.now kind }
    {
        self.begins[kind as usize]
    }

    /// The note's register for a register that a routine's op names.
    #[inline(always)]
    pub fn register(&self, register: Reg) -> Reg
        requires { is_small (moved_reg self.now register) ≡ true }
        ensures { result ≡ moved_reg self.now register }
    {
        let offset = self.begin(register.kind) + register.offset as usize;
        Reg {
            kind: register.kind,
            offset: offset as u32,
        }
    }

    /// The note's unit for a unit that a routine's op names.
    #[inline(always)]
    pub fn unit(&self, number: u32) -> usize
        requires { leaves_room self.now ≡ true }
        ensures { result ≡ self.now.unit + number }
    {
        self.unit + number as usize
    }
}

/// An op in the window in which it is performed. Contracts speak of the op with all its numbers moved
/// (`there`).
#[derive(Clone, Copy)]
pub struct OpAt<'o> {
    pub op: &'o Op,
    pub window: &'o Window,
}

impl<'o> OpAt<'o> {
    /// The register that it writes, if its act writes one.
    #[inline(always)]
    pub fn writes(&self) -> Reg
        requires { is_small (there self.now).into ≡ true }
        ensures { result ≡ (there self.now).into }
    {
        self.window.register(self.op.into)
    }

    /// The registers that it reads.
    #[inline(always)]
    pub fn reads(&self) -> Reads<'o>
        ensures { regs_read result ≡ (there self.now).from }
    {
        Reads {
            registers: self.op.from.as_slice(),
            window: self.window,
        }
    }

    /// The register that it reads, if it reads only one.
    #[inline(always)]
    pub fn only(&self) -> Reg
        requires one { length (there self.now).from ≡ 1 }
        requires small { list_all is_small (there self.now).from ≡ true }
        ensures { (there self.now).from ≡ result ∷ [] }
    {
        self.window.register(self.op.from.first()[0])
    }

    /// The two registers that it reads.
    #[inline(always)]
    pub fn pair(&self) -> (Reg, Reg)
        requires two { length (there self.now).from ≡ 2 }
        requires small { list_all is_small (there self.now).from ≡ true }
        ensures { (there self.now).from ≡ result.0 ∷ result.1 ∷ [] }
    {
        let from = self.op.from.first();
        (self.window.register(from[0]), self.window.register(from[1]))
    }

    /// The three registers that it reads.
    #[inline(always)]
    pub fn triple(&self) -> (Reg, Reg, Reg)
        requires three { length (there self.now).from ≡ 3 }
        requires small { list_all is_small (there self.now).from ≡ true }
        ensures { (there self.now).from ≡ result.0 ∷ result.1 ∷ result.2 ∷ [] }
    {
        let from = self.op.from.first();
        (
            self.window.register(from[0]),
            self.window.register(from[1]),
            self.window.register(from[2]),
        )
    }
}

/// The registers that an op reads, in a window. Contracts speak of the list of moved registers (`regs_read`).
#[derive(Clone, Copy)]
pub struct Reads<'o> {
    registers: &'o [Reg],
    window: &'o Window,
}

impl<'o> Reads<'o> {
    #[inline(always)]
    /// The number of registers.
    pub fn len(&self) -> usize
        ensures { result ≡ length (regs_read self.now) }
    {
        self.registers.len()
    }

    /// The register at a place, counted from 0. `None` if the place is beyond the last register.
    #[inline(always)]
    pub fn get(&self, place: usize) -> Option<Reg>
        requires { list_all is_small (regs_read self.now) ≡ true }
        ensures { result ≡ slice_get (regs_read self.now) place }
    {
        match self.registers.get(place) {
            Some(register) => Some(self.window.register(*register)),
            None => None,
        }
    }
}
