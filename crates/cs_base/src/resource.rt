// Rates, and the resources that notes share.
ghost use Rattle.std.specs.Prelude.{◌≡◌};
ghost use Rattle.cs_base.specs.Rates.{is_init, is_control, is_audio, same_rate, within, faster};
ghost use Rattle.cs_base.specs.Rates.{res_kind, res_number, res_rate, same_res};

/// How often a value changes: once per note (i-rate), once per control cycle (k-rate), or once per frame
/// (a-rate).
#[derive(Clone, Copy, Debug, PartialEq, Eq)]
pub enum Rate {
    Init,
    Control,
    Audio,
}

impl Rate {
    /// Whether this is i-rate: the value is known when the note begins.
    pub fn is_init(self) -> bool
        ensures { result ≡ is_init self }
    {
        matches!(self, Rate::Init)
    }

    /// Whether this is k-rate: the value changes once per control cycle.
    pub fn is_control(self) -> bool
        ensures { result ≡ is_control self }
    {
        matches!(self, Rate::Control)
    }

    /// Whether this is a-rate: the value is an audio signal, which changes once per frame.
    pub fn is_audio(self) -> bool
        ensures { result ≡ is_audio self }
    {
        matches!(self, Rate::Audio)
    }

    /// Whether `self` and `other` are the same rate.
    pub fn same(self, other: Rate) -> bool
        ensures { result ≡ same_rate self other }
    {
        self as u8 == other as u8
    }

    /// Whether a value of this rate changes no more often than a value of rate `other`.
    pub fn within(self, other: Rate) -> bool
        ensures { result ≡ within self other }
    {
        self as u8 <= other as u8
    }

    /// Returns whichever of `self` and `other` changes more often.
    pub fn faster(self, other: Rate) -> Rate
        ensures { result ≡ faster self other }
    {
        if self.within(other) { other } else { self }
    }
}

/// A resource that notes share. Variables and channels are numbered in the order in which the text first
/// mentions them, a zak place by its index in its space, and a table by its table number.
#[derive(Clone, Copy, PartialEq, Eq)]
pub enum Res {
    Gi(usize),
    Gk(usize),
    Ga(usize),
    ZakK(usize),
    ZakA(usize),
    Control(usize),
    Sound(usize),
    Table(usize),
}

impl Res {
    /// Whether `self` and `other` are the same resource.
    pub fn same(self, other: Res) -> bool
        ensures { result ≡ same_res self other }
    {
        self.kind() == other.kind() && self.number() == other.number()
    }

    /// Returns the resource's kind: 0 to 7, in the order above.
    pub fn kind(self) -> u8
        ensures { result ≡ res_kind self }
    {
        match self {
            Res::Gi(_) => 0,
            Res::Gk(_) => 1,
            Res::Ga(_) => 2,
            Res::ZakK(_) => 3,
            Res::ZakA(_) => 4,
            Res::Control(_) => 5,
            Res::Sound(_) => 6,
            Res::Table(_) => 7,
        }
    }

    /// Returns the resource's number among the resources of its kind.
    pub fn number(self) -> usize
        ensures { result ≡ res_number self }
    {
        match self {
            Res::Gi(n) => n,
            Res::Gk(n) => n,
            Res::Ga(n) => n,
            Res::ZakK(n) => n,
            Res::ZakA(n) => n,
            Res::Control(n) => n,
            Res::Sound(n) => n,
            Res::Table(n) => n,
        }
    }

    /// Returns how often the resource changes: a variable at the rate of its name, a table at any frame.
    pub fn rate(self) -> Rate
        ensures { result ≡ res_rate self }
    {
        match self {
            Res::Gi(_) => Rate::Init,
            Res::Gk(_) | Res::ZakK(_) | Res::Control(_) => Rate::Control,
            Res::Ga(_) | Res::ZakA(_) | Res::Sound(_) | Res::Table(_) => Rate::Audio,
        }
    }
}
