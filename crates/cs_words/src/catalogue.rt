// The catalogue: one row for each opcode, with everything that the layers above need to know about it.
ghost use Rattle.std.specs.{Prelude.◌≡◌, Prelude.length, Prelude.filter, List.list_any};
ghost use Rattle.cs_words.specs.inner.Rows.{first_named, row_in};
ghost use Rattle.cs_words.specs.Catalogue.{row_of, catalogued, letter_at, takes_count, further, may_follow};
ghost use Rattle.cs_words.specs.Catalogue.{result_count, takes, is_table, is_text, is_settled, is_moving};
ghost use Rattle.cs_words.specs.Catalogue.{may_follow_settled, unit_takes};

use cs_base::Rate;
use std::marker::Model;

/// The opcodes of the profile, one variant each.
#[derive(Clone, Copy, PartialEq, Eq)]
pub enum Opcode {
    Init,
    Oscil,
    Oscili,
    Phasor,
    Line,
    Linseg,
    Linen,
    Delay,
    Biquad,
    Table,
    Tablei,
    Tablew,
    Integ,
    Diff,
    Samphold,
    Limit,
    Interp,
    Downsamp,
    Out,
    Outs,
    Outch,
    Turnoff,
    Zakinit,
    Zkr,
    Zar,
    Zkw,
    Zaw,
    Zawm,
    Zkcl,
    Zacl,
    Chnget,
    Chnset,
    Chnmix,
    Chnclear,
    Schedule,
    EventI,
}

/// The kind of argument that an opcode accepts.
#[derive(Clone, Copy)]
pub enum Letter {
    /// `i`: a value that is known when the note begins.
    Init,
    /// `f`: like `Init`, and the value is a table number.
    Table,
    /// `k`: a value that changes at most once per control cycle; like `Init` if the result is i-rate.
    Control,
    /// `p`: like `Control`, and the value is a place in the zak space.
    Place,
    /// `a`: an audio signal.
    Audio,
    /// `x`: any value that changes no more often than the result.
    Held,
    /// `v`: a value of any rate.
    Any,
    /// `s`: a quoted text.
    Text,
}

impl Letter {
    /// Whether the argument may be a value of rate `rate`; `bound` is the rate of the result.
    pub fn takes(self, bound: Rate, rate: Rate) -> bool
        ensures { result ≡ takes self bound rate }
    {
        match self {
            Letter::Init | Letter::Table => rate.is_init(),
            Letter::Control | Letter::Place => rate.within(bound) && !rate.is_audio(),
            Letter::Audio => rate.is_audio(),
            Letter::Held => rate.within(bound),
            Letter::Any => true,
            Letter::Text => false,
        }
    }

    /// Whether the argument must be a quoted text.
    pub fn is_text(self) -> bool
        ensures { result ≡ is_text self }
    {
        matches!(self, Letter::Text)
    }

    /// Whether the argument is settled: known when the note begins.
    pub fn is_settled(self) -> bool
        ensures { result ≡ is_settled self }
    {
        matches!(self, Letter::Init | Letter::Table)
    }

    /// Whether the argument may change while the note sounds.
    pub fn is_moving(self) -> bool
        ensures { result ≡ is_moving self }
    {
        !self.is_settled() && !self.is_text()
    }
}

/// The optional arguments, which follow the required ones.
#[derive(Clone, Copy)]
pub enum More {
    Nothing,
    /// At most one more argument.
    Perhaps(Letter),
    /// Any number of arguments.
    Each(Letter),
    /// Any number of pairs of arguments.
    Pairs(Letter, Letter),
}

/// A zak space: k-rate or a-rate.
#[derive(Clone, Copy)]
pub enum Space {
    Control,
    Audio,
}

/// How an opcode is performed.
#[derive(Clone, Copy)]
pub enum Shape {
    /// Sets its variable once, when the note begins.
    Init,
    /// Computes its result from its arguments and its own state.
    Unit,
    /// Stores into a table.
    Store,
    /// Adds to the output channels, beginning with the first.
    Out,
    /// Adds to output channels, which are selected by number.
    OutAt,
    /// Ends its own note.
    Turnoff,
    /// Sets the sizes of the zak spaces.
    ZakInit,
    /// Reads a zak place.
    ZakGet(Space),
    /// Stores into a zak place.
    ZakPut(Space),
    /// Adds to an a-rate zak place.
    ZakMix,
    /// Sets zak places to 0.
    ZakClear(Space),
    /// Reads a channel.
    ChannelGet,
    /// Stores into a channel.
    ChannelPut,
    /// Adds to an audio channel.
    ChannelMix,
    /// Sets an audio channel to 0.
    ChannelClear,
    /// Schedules a note.
    Ask,
}

/// A row of the catalogue.
#[derive(Drop)]
pub struct Signature {
    name: &'static str,
    results: &'static [Rate],
    fixed: &'static [Letter],
    more: More,
    shape: Shape,
}

impl Model for Signature {
    ghost use Rattle.cs_words.specs.Catalogue.{Row};

    ghost Value = { Row };

    ghost view = { λ s. record {
      name = s.name.now;
      results = s.results.now;
      fixed = s.fixed.now;
      more = s.more;
      shape = s.shape;
    } };
}

// The lists of result rates that the catalogue uses.
const NONE: [Rate; 0] = [];

const CONTROL: [Rate; 1] = [Rate::Control];

const AUDIO: [Rate; 1] = [Rate::Audio];

const KA: [Rate; 2] = [Rate::Control, Rate::Audio];

const IKA: [Rate; 3] = [Rate::Init, Rate::Control, Rate::Audio];

// The letters that the catalogue uses.
const I: Letter = Letter::Init;

const F: Letter = Letter::Table;

const K: Letter = Letter::Control;

const P: Letter = Letter::Place;

const A: Letter = Letter::Audio;

const X: Letter = Letter::Held;

const V: Letter = Letter::Any;

const S: Letter = Letter::Text;

// A row of the catalogue with its opcode.
#[derive(Clone, Copy)]
struct Entry {
    opcode: Opcode,
    name: &'static str,
    results: &'static [Rate],
    fixed: &'static [Letter],
    more: More,
    shape: Shape,
}

macro_rules! row {
    ($opcode:ident: $name:expr, $results:expr, $fixed:expr, $more:expr, $shape:expr) => {
        Entry {
            opcode: Opcode::$opcode,
            name: $name,
            results: &$results,
            fixed: &$fixed,
            more: $more,
            shape: $shape,
        }
    };
}

// The catalogue: every opcode once, in the order of the variants, with its row.
const CATALOGUE: &[Entry] = &[
    row!(Init: "init", IKA, [I], More::Nothing, Shape::Init),
    row!(Oscil: "oscil", KA, [X, X, F], More::Perhaps(I), Shape::Unit),
    row!(Oscili: "oscili", KA, [X, X, F], More::Perhaps(I), Shape::Unit),
    row!(Phasor: "phasor", KA, [X], More::Perhaps(I), Shape::Unit),
    row!(Line: "line", KA, [I, I, I], More::Nothing, Shape::Unit),
    row!(Linseg: "linseg", KA, [I, I, I], More::Pairs(I, I), Shape::Unit),
    row!(Linen: "linen", KA, [X, I, I, I], More::Nothing, Shape::Unit),
    row!(Delay: "delay", AUDIO, [A, I], More::Nothing, Shape::Unit),
    row!(Biquad: "biquad", AUDIO, [A, K, K, K, K, K, K], More::Nothing, Shape::Unit),
    row!(Table: "table", IKA, [X, F], More::Nothing, Shape::Unit),
    row!(Tablei: "tablei", IKA, [X, F], More::Nothing, Shape::Unit),
    row!(Tablew: "tablew", NONE, [V, V, F], More::Nothing, Shape::Store),
    row!(Integ: "integ", KA, [X], More::Nothing, Shape::Unit),
    row!(Diff: "diff", KA, [X], More::Nothing, Shape::Unit),
    row!(Samphold: "samphold", KA, [X, X], More::Nothing, Shape::Unit),
    row!(Limit: "limit", IKA, [X, K, K], More::Nothing, Shape::Unit),
    row!(Interp: "interp", AUDIO, [K], More::Nothing, Shape::Unit),
    row!(Downsamp: "downsamp", CONTROL, [A], More::Nothing, Shape::Unit),
    row!(Out: "out", NONE, [A], More::Each(A), Shape::Out),
    row!(Outs: "outs", NONE, [A, A], More::Nothing, Shape::Out),
    row!(Outch: "outch", NONE, [K, A], More::Pairs(K, A), Shape::OutAt),
    row!(Turnoff: "turnoff", NONE, [], More::Nothing, Shape::Turnoff),
    row!(Zakinit: "zakinit", NONE, [I, I], More::Nothing, Shape::ZakInit),
    row!(Zkr: "zkr", CONTROL, [P], More::Nothing, Shape::ZakGet(Space::Control)),
    row!(Zar: "zar", AUDIO, [P], More::Nothing, Shape::ZakGet(Space::Audio)),
    row!(Zkw: "zkw", NONE, [K, P], More::Nothing, Shape::ZakPut(Space::Control)),
    row!(Zaw: "zaw", NONE, [A, P], More::Nothing, Shape::ZakPut(Space::Audio)),
    row!(Zawm: "zawm", NONE, [A, P], More::Nothing, Shape::ZakMix),
    row!(Zkcl: "zkcl", NONE, [P, P], More::Nothing, Shape::ZakClear(Space::Control)),
    row!(Zacl: "zacl", NONE, [P, P], More::Nothing, Shape::ZakClear(Space::Audio)),
    row!(Chnget: "chnget", IKA, [S], More::Nothing, Shape::ChannelGet),
    row!(Chnset: "chnset", NONE, [V, S], More::Nothing, Shape::ChannelPut),
    row!(Chnmix: "chnmix", NONE, [A, S], More::Nothing, Shape::ChannelMix),
    row!(Chnclear: "chnclear", NONE, [S], More::Nothing, Shape::ChannelClear),
    row!(Schedule: "schedule", NONE, [I, I, I], More::Each(I), Shape::Ask),
    row!(EventI: "event_i", NONE, [S, I, I, I], More::Each(I), Shape::Ask),
];

/// Returns the row of an opcode.
pub fn signature_of(opcode: Opcode) -> Signature
    ensures { result ≡ row_of opcode }
{
    CATALOGUE[opcode as usize].signature()
}

impl Entry {
    // The row without its opcode.
    fn signature(&self) -> Signature
        ensures { result ≡ row_in self.now }
    {
        Signature {
            name: self.name,
            results: self.results,
            fixed: self.fixed,
            more: self.more,
            shape: self.shape,
        }
    }
}

impl Signature {
    /// Returns the opcode's name.
    pub fn name(&self) -> &'static str
        ensures { result.now ≡ self.now.name }
    {
        self.name
    }

    /// Returns the rates that the result may have; empty if the opcode has no result.
    pub fn results(&self) -> &'static [Rate]
        ensures { result.now ≡ self.now.results }
    {
        self.results
    }

    /// Returns the letters of the required arguments, in order.
    pub fn fixed(&self) -> &'static [Letter]
        ensures { result.now ≡ self.now.fixed }
    {
        self.fixed
    }

    /// Returns how the opcode is performed.
    pub fn shape(&self) -> Shape
        ensures { result ≡ self.now.shape }
    {
        self.shape
    }

    /// Returns the number of results: 0 or 1.
    pub fn result_count(&self) -> usize
        ensures { result ≡ result_count self.now }
    {
        if self.results.is_empty() { 0 } else { 1 }
    }

    /// Whether one of the required arguments is a table number.
    pub fn takes_table(&self) -> bool
        ensures { result ≡ list_any is_table self.now.fixed }
    {
        self.fixed
            .iter()
            .any(|letter| matches!(letter, Letter::Table))
    }

    /// Whether the opcode accepts `count` arguments.
    pub fn takes_count(&self, count: usize) -> bool
        ensures { result ≡ takes_count self.now count }
    {
        count >= self.fixed.len() && self.more.may_follow(count - self.fixed.len())
    }

    /// Whether the opcode accepts `count` settled arguments.
    pub fn takes_settled(&self, count: usize) -> bool
        ensures { result ≡ unit_takes self.now count }
    {
        let least = settled_among(self.fixed);
        count >= least && self.more.may_follow_settled(count - least)
    }

    /// Returns the letter of the argument at index `place`, from 0; `Letter::Any` beyond the last argument.
    pub fn letter(&self, place: usize) -> Letter
        ensures { result ≡ letter_at self.now place }
    {
        match self.fixed.get(place) {
            Some(letter) => *letter,
            None => self.more.letter(place - self.fixed.len()),
        }
    }
}

// The number of settled letters.
fn settled_among(letters: &[Letter]) -> usize
    ensures { result ≡ length (filter is_settled letters.now) }
{
    letters.iter().filter(|letter| letter.is_settled()).count()
}

impl More {
    // Whether `count` arguments may follow the required ones.
    fn may_follow(self, count: usize) -> bool
        ensures { result ≡ may_follow self count }
    {
        match self {
            More::Nothing => count == 0,
            More::Perhaps(_) => count <= 1,
            More::Each(_) => true,
            More::Pairs(_, _) => count % 2 == 0,
        }
    }

    // Whether `count` settled arguments may follow the required ones.
    fn may_follow_settled(self, count: usize) -> bool
        ensures { result ≡ may_follow_settled self count }
    {
        match self {
            More::Perhaps(letter) | More::Each(letter) if !letter.is_settled() => count == 0,
            More::Pairs(first, second) if !(first.is_settled() && second.is_settled()) => count
                == 0,
            _ => self.may_follow(count),
        }
    }

    // The letter of the optional argument at index `place`, from 0.
    fn letter(self, place: usize) -> Letter
        ensures { result ≡ further self place }
    {
        match self {
            More::Nothing => Letter::Any,
            More::Perhaps(letter) | More::Each(letter) => letter,
            More::Pairs(first, second) => { if place % 2 == 0 { first } else { second } }
        }
    }
}

impl Opcode {
    /// Returns the opcode's name.
    pub fn name(self) -> &'static str
        ensures { result.now ≡ (row_of self).name }
    {
        signature_of(self).name
    }
}

/// Returns the opcode with this name, or `None` if there is none.
#[tactic(auto, unfolding(crate::specs::Catalogue::catalogued))]
pub fn find_opcode(name: &[u8]) -> Option<Opcode>
    ensures { result ≡ catalogued name.now }
{
    first_named(name, CATALOGUE)
}

fn first_named(name: &[u8], among: &[Entry]) -> Option<Opcode>
    ensures { result ≡ first_named among.now name.now }
{
    for entry in among {
        if name == entry.name.as_bytes() {
            return Some(entry.opcode);
        }
    }
    None
}
