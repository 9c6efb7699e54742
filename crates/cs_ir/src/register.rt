// Registers: the variables and intermediate values of a note's code.
ghost use Rattle.std.specs.Prelude.{◌≡◌, ◌≤◌, ◌^◌, max, OnOk, if◌then◌else◌};
ghost use Rattle.cs_base.specs.Rates.{is_audio};
ghost use Rattle.cs_ir.specs.Registers.{at_kind, local, rate_at, rate_of, same_kind, temporary};
ghost use Rattle.cs_ir.specs.{declared.register.Kind.Kind, inner.Reaching.behind};

use cs_base::{OutOfMemory, Rate};

/// The purpose of a register and its rate: a local variable, a value that is computed as the note begins and
/// then kept, or a temporary for an intermediate result.
#[derive(Clone, Copy)]
pub enum Kind {
    LocalInit,
    LocalControl,
    Kept,
    TemporaryInit,
    TemporaryControl,
    LocalAudio,
    TemporaryAudio,
}

/// The number of kinds. The first `HELD_KINDS` of them aren't a-rate.
pub const KINDS: usize = 7;

/// The number of kinds whose registers hold one value per cycle.
pub const HELD_KINDS: usize = 5;

impl Kind {
    /// The kind of a local variable of this rate.
    pub fn local(rate: Rate) -> Kind
        ensures { result ≡ local rate }
    {
        match rate {
            Rate::Init => Kind::LocalInit,
            Rate::Control => Kind::LocalControl,
            Rate::Audio => Kind::LocalAudio,
        }
    }

    /// The kind of a temporary of this rate.
    pub fn temporary(rate: Rate) -> Kind
        ensures { result ≡ temporary rate }
    {
        match rate {
            Rate::Init => Kind::TemporaryInit,
            Rate::Control => Kind::TemporaryControl,
            Rate::Audio => Kind::TemporaryAudio,
        }
    }

    /// Whether registers of this kind hold a value for each frame of the cycle. All others hold one value.
    #[inline(always)]
    pub fn is_audio(self) -> bool
        ensures { result ≡ is_audio (rate_of self) }
    {
        self as usize >= HELD_KINDS
    }
}

/// A register: its kind, and its number within its kind.
#[derive(Clone, Copy)]
pub struct Reg {
    pub kind: Kind,
    pub offset: u32,
}

impl Reg {
    /// The rate at which the register's value changes.
    #[inline(always)]
    pub fn rate(self) -> Rate
        ensures { result ≡ rate_at self }
    {
        match self.kind {
            Kind::LocalInit | Kind::Kept | Kind::TemporaryInit => Rate::Init,
            Kind::LocalControl | Kind::TemporaryControl => Rate::Control,
            Kind::LocalAudio | Kind::TemporaryAudio => Rate::Audio,
        }
    }

    /// Whether the register holds a value for each frame of the cycle.
    #[inline(always)]
    pub fn is_audio(self) -> bool
        ensures { result ≡ is_audio (rate_at self) }
    {
        self.kind.is_audio()
    }
}

/// The number of registers of each kind, below 2^32 each.
#[derive(Clone, Copy)]
pub struct RegisterCounts {
    counts: [u32; KINDS],
}

/// The number of registers of each kind that a code has, and its number of units.
#[derive(Clone, Copy)]
pub struct Counts {
    pub registers: RegisterCounts,
    pub units: usize,
}

/// No registers of any kind.
pub const NO_REGISTERS: RegisterCounts = RegisterCounts { counts: [0; KINDS] };

impl RegisterCounts {
    /// The number of registers of a kind.
    pub fn of(&self, kind: Kind) -> usize
        ensures { result ≡ at_kind self.now kind }
    {
        self.counts[kind as usize] as usize
    }

    /// Raises the number of registers of a kind to at least `begin` + `count`, if `count` isn't 0. A sum of
    /// more than 32 bits is reported as out of memory, since 2^32 registers would need 32 GB.
    pub(crate) fn raise(&mut self, kind: Kind, begin: u32, count: usize) -> Result<(), OutOfMemory>
        requires { count ≤ 2 ^ 32 }
        ensures { OnOk result ((k : Kind) → at_kind self.new k ≡ if same_kind k kind
            then max (at_kind self.old k) (behind begin count) else at_kind self.old k) }
    {
        if count == 0 {
            return Ok(());
        }
        let end = begin as usize + count;
        if end > u32::MAX as usize {
            return Err(OutOfMemory);
        }
        let place = kind as usize;
        self.counts[place] = self.counts[place].max(end as u32);
        Ok(())
    }

    /// The greater count of two, for each kind.
    pub fn greatest(&self, other: &RegisterCounts) -> RegisterCounts
        ensures { (k : Kind) → at_kind result k ≡ max (at_kind self.now k) (at_kind other.now k) }
    {
        let (one, two) = (&self.counts, &other.counts);
        let counts = [
            one[0].max(two[0]),
            one[1].max(two[1]),
            one[2].max(two[2]),
            one[3].max(two[3]),
            one[4].max(two[4]),
            one[5].max(two[5]),
            one[6].max(two[6]),
        ];
        RegisterCounts { counts }
    }
}
