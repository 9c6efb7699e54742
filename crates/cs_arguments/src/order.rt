// What the arguments ask for, in the form that the program uses.
ghost use Rattle.std.specs.Prelude.{◌≡◌};
ghost use Rattle.cs_arguments.specs.Ranges.{IsFromOneTo};

use cs_base::SampleWidth;
use std::marker::Model;

/// An integer from 1 to `MOST`. Contracts see the number.
#[derive(Clone, Copy)]
pub struct FromOneTo<const MOST: u32> {
    number: u32,
}

impl<const MOST: u32> Model for FromOneTo<MOST> {
    ghost use Rattle.std.specs.Prelude.{ℕ};
    ghost use Rattle.cs_arguments.specs.Ranges.{IsFromOneTo};

    ghost Value = { ℕ };

    ghost view = { λ w. w.number };

    ghost invariant = { λ w. IsFromOneTo MOST w.number };

    ghost inverse = { λ n. record { number = n } };
}

impl<const MOST: u32> FromOneTo<MOST> {
    /// Makes this number, from 1 to `MOST`.
    pub fn new(number: u32) -> FromOneTo<MOST>
        requires { IsFromOneTo MOST number }
        ensures { result ≡ number }
    {
        FromOneTo { number }
    }

    /// Returns the number, from 1 to `MOST`.
    pub fn number(self) -> u32
        ensures value { result ≡ self.entry }
        ensures range { IsFromOneTo MOST result }
    {
        self.number
    }
}

/// The number of workers that share the notes of a cycle, from 1 to 32.
pub type Workers = FromOneTo<32>;

/// The number of notes of the demo besides its delay, from 1 to 10,000.
pub type DemoNotes = FromOneTo<10_000>;

/// The source of the orchestra and the score. No name is empty.
#[derive(Clone, Copy)]
pub enum Source<'w> {
    /// One file for each.
    TwoFiles { orchestra: &'w str, score: &'w str },
    /// One file with both, whose name ends in `.csd`.
    OneFile { csd: &'w str },
    /// The built-in piece, with this number of notes.
    Demo { notes: DemoNotes },
}

/// What the arguments ask for.
#[derive(Clone, Copy)]
pub struct Order<'w> {
    pub workers: Workers,
    /// The name of the sound file, which isn't empty.
    pub sound_file: &'w str,
    pub width: SampleWidth,
    /// Whether no sound file is written.
    pub silent: bool,
    /// Whether the report contains the turns of each cycle.
    pub turns: bool,
    /// Whether the workers stay from cycle to cycle.
    pub pool: bool,
    pub source: Source<'w>,
}
