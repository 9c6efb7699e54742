// Operands: the registers that an op reads.
ghost use Rattle.std.specs.Prelude.{◌≡◌, ◌≤◌, [], ◌∷◌, length, take};

use crate::{Kind, Reg};
use std::marker::Model;

// Up to three registers are stored in the op itself, more of them in a vector. So the operands of most ops
// are found without following a pointer.
#[derive(Drop)]
enum Stored {
    Few(u32, [Reg; FEW]),
    More(Vec<Reg>),
}

const FEW: usize = 3;

// The filler after the last of fewer than three registers.
const UNREAD: Reg = Reg {
    kind: Kind::TemporaryInit,
    offset: 0,
};

/// The registers that an op reads, in order. Contracts see the list of registers.
#[derive(Drop)]
pub struct Operands {
    stored: Stored,
}

impl Model for Operands {
    ghost use Rattle.std.specs.Prelude.{List};
    ghost use Rattle.cs_ir.specs.{Operands.IsStored, Operands.registers, declared.register.Reg.Reg};

    ghost Value = { List Reg };

    ghost view = { λ o. registers o.stored };

    ghost invariant = { λ o. IsStored o.stored };
}

impl Operands {
    /// No registers.
    pub fn none() -> Operands
        ensures { result ≡ [] }
    {
        Operands::few(0, [UNREAD; FEW])
    }

    fn few(count: u32, registers: [Reg; FEW]) -> Operands
        requires { count ≤ 3 }
        ensures { result ≡ take count registers }
    {
        Operands {
            stored: Stored::Few(count, registers),
        }
    }

    /// One register.
    pub fn one(x: Reg) -> Operands
        ensures { result ≡ x ∷ [] }
    {
        Operands::few(1, [x, UNREAD, UNREAD])
    }

    /// Two registers, in order.
    pub fn two(x: Reg, y: Reg) -> Operands
        ensures { result ≡ x ∷ y ∷ [] }
    {
        Operands::few(2, [x, y, UNREAD])
    }

    /// Three registers, in order.
    pub fn three(x: Reg, y: Reg, z: Reg) -> Operands
        ensures { result ≡ x ∷ y ∷ z ∷ [] }
    {
        Operands::few(3, [x, y, z])
    }

    /// The registers of a vector. The vector is kept if it has more than three of them.
    pub fn from_vec(registers: Vec<Reg>) -> Operands
        ensures { result ≡ registers.items }
    {
        match &registers[..] {
            [] => Operands::none(),
            [x] => Operands::one(*x),
            [x, y] => Operands::two(*x, *y),
            [x, y, z] => Operands::three(*x, *y, *z),
            _ => Operands {
                stored: Stored::More(registers),
            },
        }
    }

    #[inline(always)]
    /// All registers, in order.
    pub fn as_slice(&self) -> &[Reg]
        ensures { result.now ≡ self.now }
    {
        match &self.stored {
            Stored::Few(count, registers) => &registers[..*count as usize],
            Stored::More(registers) => registers,
        }
    }

    /// The array of the registers, if there are at most three.
    #[inline(always)]
    pub(crate) fn first(&self) -> &[Reg; FEW]
        requires { length self.now ≤ 3 }
        ensures { self.now ≡ take (length self.now) result.now }
    {
        match &self.stored {
            Stored::Few(_, registers) => registers,
            Stored::More(_) => unreachable!(),
        }
    }
}
