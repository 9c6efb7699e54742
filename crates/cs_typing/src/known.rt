// The names known at a point of the text: variables and channels, each with its number.
ghost use Rattle.std.specs.Prelude.{◌≡◌, ◌+◌, OnOk, IfOk};
ghost use Rattle.cs_typing.specs.Known.{no_names, of_rate, in_table, place_in, added, first_with, clashes, channel_of};
ghost use Rattle.cs_typing.specs.{Known.use_channel, Known.global, Typing.shared_names};
ghost use Rattle.cs_typed.specs.TypedTree as typed;
ghost use Rattle.cs_typing.specs.inner.Routines.{no_locals, has_local, number_in, given_in, counted};
ghost use Rattle.cs_typing.specs.inner.Routines.{past_call, known_in, knows_in, variable_in};
ghost use Rattle.cs_typing.specs.{inner.Held.known_of, inner.Held.locals_of, inner.Slots.one_counted};

use cs_base::{Names, OutOfMemory, PerRate, Rate, Res};
use cs_typed::{Globals, Var};
use cs_words::{NameSet, is_global, name_rate};
use std::alloc::Global;
use std::collections::BTreeMap;
use std::marker::Model;
use std::mem::swap;

/// The kind of a channel: k-rate or a-rate.
#[derive(Clone, Copy)]
pub enum Channel {
    Control,
    Sound,
}

// Adds two counts of local variables. A sum that doesn't fit would be reported as out of memory; this never
// happens, since an expanded body has at most `MOST_STATEMENTS` statements.
fn plus(a: usize, b: usize) -> Result<usize, OutOfMemory>
    ensures { IfOk result (λ n. n ≡ a + b) }
{
    a.checked_add(b).ok_or(OutOfMemory)
}

fn one_more(counts: PerRate<usize>, rate: Rate) -> Result<PerRate<usize>, OutOfMemory>
    ensures { IfOk result (λ c. c ≡ counted rate counts) }
{
    let mut more = counts;
    match rate {
        Rate::Init => more.init = plus(counts.init, 1)?,
        Rate::Control => more.control = plus(counts.control, 1)?,
        Rate::Audio => more.audio = plus(counts.audio, 1)?,
    }
    Ok(more)
}

/// The local variables of a body so far: the number of each among the variables of its rate, and the count of
/// numbers used at each rate, including the variables of the bodies that it calls.
#[derive(Drop)]
pub struct Scope<'t> {
    numbers: BTreeMap<&'t [u8], usize>,
    counts: PerRate<usize>,
}

impl<'t> Scope<'t> {
    /// Returns a scope without variables.
    pub fn new(alloc: Global) -> Scope<'t>
        ensures { locals_of result ≡ no_locals }
    {
        Scope {
            numbers: BTreeMap::new(alloc),
            counts: PerRate {
                init: 0,
                control: 0,
                audio: 0,
            },
        }
    }

    fn given_number(&self, name: &[u8]) -> Option<usize>
        ensures { result ≡ (locals_of self.now).number name.now }
    {
        self.numbers.get(name).copied()
    }

    /// Whether a local variable is known.
    pub fn has(&self, name: &[u8]) -> bool
        ensures { result ≡ has_local (locals_of self.now) name.now }
    {
        self.given_number(name).is_some()
    }

    /// Returns the number of a variable; a new one has the next number of its rate.
    pub fn number(&self, name: &[u8]) -> usize
        ensures { result ≡ number_in (locals_of self.now) name.now }
    {
        self.given_number(name)
            .unwrap_or(self.counts.of(name_rate(name)))
    }

    /// Records that a variable is assigned: from now on a local one belongs to the body.
    pub fn give(&mut self, name: &'t [u8]) -> Result<(), OutOfMemory>
        ensures { OnOk result (locals_of self.new ≡ given_in (locals_of self.old) name.now) }
    {
        if is_global(name) || self.has(name) {
            return Ok(());
        }
        let rate = name_rate(name);
        let counts = one_more(self.counts, rate)?;
        let number = self.counts.of(rate);
        self.numbers.insert(name, number)?;
        self.counts = counts;
        Ok(())
    }

    /// Reserves the next number of a rate, for a variable without a name in the text.
    pub fn take_one(&mut self, rate: Rate) -> Result<(), OutOfMemory>
        ensures { OnOk result (locals_of self.new ≡ one_counted (locals_of self.old) rate) }
    {
        self.counts = one_more(self.counts, rate)?;
        Ok(())
    }

    /// Reserves `counts` variable numbers of each rate for a body that is called.
    pub fn take(&mut self, counts: PerRate<usize>) -> Result<(), OutOfMemory>
        ensures { OnOk result (locals_of self.new ≡ past_call (locals_of self.old) counts) }
    {
        self.counts = PerRate {
            init: plus(self.counts.init, counts.init)?,
            control: plus(self.counts.control, counts.control)?,
            audio: plus(self.counts.audio, counts.audio)?,
        };
        Ok(())
    }

    /// Returns the count of numbers used at each rate.
    pub fn counts(&self) -> PerRate<usize>
        ensures { result ≡ (locals_of self.now).counts }
    {
        self.counts
    }
}

/// Names of variables by rate, each list in the order of first assignment.
#[derive(Drop)]
pub struct NamesByRate<'t>(PerRate<NameSet<'t>>);

impl<'t> Model for NamesByRate<'t> {
    ghost use Rattle.cs_typing.specs.Known.{RateNames};

    ghost Value = { RateNames };

    ghost view = { λ t. t.0 };
}

impl<'t> NamesByRate<'t> {
    /// Returns empty lists of names.
    pub fn new(alloc: Global) -> NamesByRate<'t>
        ensures { result ≡ no_names }
    {
        NamesByRate(PerRate {
            init: NameSet::new(alloc),
            control: NameSet::new(alloc),
            audio: NameSet::new(alloc),
        })
    }

    /// Returns the names of variables of a rate.
    pub fn of_rate(&self, rate: Rate) -> &NameSet<'t>
        ensures { result.now ≡ of_rate rate self.now }
    {
        match rate {
            Rate::Init => &self.0.init,
            Rate::Control => &self.0.control,
            Rate::Audio => &self.0.audio,
        }
    }

    /// Whether the lists contain a name.
    pub fn has(&self, name: &[u8]) -> bool
        ensures { result ≡ in_table self.now name.now }
    {
        self.of_rate(name_rate(name)).has(name)
    }

    /// Returns the number of a name among the names of its rate; a new name has the next number.
    pub fn place(&self, name: &[u8]) -> usize
        ensures { result ≡ place_in self.now name.now }
    {
        self.of_rate(name_rate(name)).place(name)
    }

    /// Adds a name to the names of its rate, unless they contain it.
    pub fn add(&mut self, name: &'t [u8]) -> Result<(), OutOfMemory>
        ensures { OnOk result (self.new ≡ added self.old name.now) }
    {
        match name_rate(name) {
            Rate::Init => self.0.init.add(name),
            Rate::Control => self.0.control.add(name),
            Rate::Audio => self.0.audio.add(name),
        }
    }

    fn copied(&self, alloc: Global) -> Result<PerRate<Names>, OutOfMemory>
        ensures { IfOk result (λ made. made ≡ self.now) }
    {
        Ok(PerRate {
            init: self.0.init.to_names(alloc)?,
            control: self.0.control.to_names(alloc)?,
            audio: self.0.audio.to_names(alloc)?,
        })
    }
}

/// The names that all bodies of an orchestra share: global variables, and the channels that were used so far.
#[derive(Drop)]
pub struct Shared<'t> {
    globals: NamesByRate<'t>,
    control: NameSet<'t>,
    sound: NameSet<'t>,
}

impl<'t> Model for Shared<'t> {
    ghost use Rattle.cs_typing.specs.Known.{Shared};

    ghost Value = { Shared };

    ghost view = { λ s. record { globals = s.globals; control = s.control; sound = s.sound } };
}

impl<'t> Shared<'t> {
    /// Whether a channel was used before as a channel of the other kind.
    pub fn clashes(&self, role: Option<Channel>, name: &[u8]) -> bool
        ensures { result ≡ clashes self.now role name.now }
    {
        match role {
            None => false,
            Some(Channel::Control) => self.sound.has(name),
            Some(Channel::Sound) => self.control.has(name),
        }
    }

    /// Returns the channel with this name; a new one has the next number.
    pub fn channel(&self, kind: Channel, name: &[u8]) -> Var
        ensures { result ≡ channel_of self.now kind name.now }
    {
        match kind {
            Channel::Control => Var::Global(Res::Control(self.control.place(name))),
            Channel::Sound => Var::Global(Res::Sound(self.sound.place(name))),
        }
    }

    /// Records that a channel is used, if `role` names a kind.
    pub fn use_channel(&mut self, role: Option<Channel>, name: &'t [u8]) -> Result<(), OutOfMemory>
        ensures { OnOk result (self.new ≡ use_channel self.old role name.now) }
    {
        match role {
            None => Ok(()),
            Some(Channel::Control) => self.control.add(name),
            Some(Channel::Sound) => self.sound.add(name),
        }
    }

    /// Returns a copy of all names.
    pub fn copied(&self, alloc: Global) -> Result<Globals, OutOfMemory>
        ensures { IfOk result (λ made. typed.shared_names made ≡ shared_names self.now) }
    {
        Ok(Globals {
            control: self.control.to_names(alloc)?,
            sound: self.sound.to_names(alloc)?,
            variables: self.globals.copied(alloc)?,
        })
    }
}

/// The names known at this point of the text: those that all bodies share, and the body's local variables so
/// far.
#[derive(Drop)]
pub struct KnownNames<'t> {
    alloc: Global,
    pub shared: Shared<'t>,
    pub scope: Scope<'t>,
}

impl<'t> KnownNames<'t> {
    /// Returns known names that consist only of these global variables.
    pub fn new(alloc: Global, globals: NamesByRate<'t>) -> KnownNames<'t>
        ensures { known_of result ≡ known_in (first_with globals.entry).shared no_locals }
    {
        KnownNames {
            alloc,
            shared: Shared {
                globals,
                control: NameSet::new(alloc),
                sound: NameSet::new(alloc),
            },
            scope: Scope::new(alloc),
        }
    }

    /// Returns the allocator.
    pub fn alloc(&self) -> Global {
        self.alloc
    }

    /// Whether a variable may be read.
    pub fn knows(&self, name: &[u8]) -> bool
        ensures { result ≡ knows_in (known_of self.now) name.now }
    {
        if is_global(name) {
            self.shared.globals.has(name)
        } else {
            self.scope.has(name)
        }
    }

    /// Returns the variable with this name; a new name has the next number.
    pub fn variable(&self, name: &[u8]) -> Var
        ensures { result ≡ variable_in (known_of self.now) name.now }
    {
        let rate = name_rate(name);
        if is_global(name) {
            Var::Global(global(rate, self.shared.globals.place(name)))
        } else {
            Var::Local(rate, self.scope.number(name))
        }
    }

    /// Exchanges the body's local variables with another body's.
    pub fn exchange(&mut self, other: &mut Scope<'t>)
        ensures own { known_of self.new ≡ known_in self.old.shared (locals_of other.old) }
        ensures other { locals_of other.new ≡ (known_of self.old).locals }
    {
        swap(&mut self.scope, other);
    }
}

fn global(rate: Rate, number: usize) -> Res
    ensures { result ≡ global rate number }
{
    match rate {
        Rate::Init => Res::Gi(number),
        Rate::Control => Res::Gk(number),
        Rate::Audio => Res::Ga(number),
    }
}
