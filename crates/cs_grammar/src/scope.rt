// The context of a line, and the opcodes that are defined before it.
ghost use Rattle.std.specs.Prelude.{◌≡◌, ◌<◌};
ghost use Rattle.cs_base.specs.Limits.{most_nested_ifs};
ghost use Rattle.cs_words.specs.NameSets.{has};
ghost use Rattle.cs_grammar.specs.Reading.{outside, in_instrument, in_definition, deeper, misfit_kind};
ghost use Rattle.cs_grammar.specs.Reading.{keyword_kind, early, open_kind};
ghost use Rattle.cs_grammar.specs.{Parts.is_opcode, Lines.is_own};

use crate::symbol::Kind;
use cs_base::OrcKind;
use cs_words::{Keyword, NameSet, Sign, Word};
use std::marker::Model;

/// The part of an orchestra that contains a line.
#[derive(Clone, Copy)]
pub enum Place {
    Outside,
    Instrument,
    Definition,
}

/// The context of a line: an instrument, a definition or neither; the number of `if`s around it; the name of
/// the definition around it; and the opcodes that are defined before it.
#[derive(Drop)]
pub struct Scope<'a, 's> {
    place: Place,
    depth: u32,
    own: &'a [u8],
    defined: &'a NameSet<'s>,
}

impl<'a, 's> Model for Scope<'a, 's> {
    ghost use Rattle.cs_grammar.specs.Reading.{Scope};

    ghost Value = { Scope };

    ghost view = { λ s. record { place = s.place; depth = s.depth; own = s.own.now; defined = s.defined.now } };
}

impl<'a, 's> Scope<'a, 's> {
    /// Returns the scope outside instruments and definitions.
    pub fn outside(defined: &'a NameSet<'s>) -> Scope<'a, 's>
        ensures { result ≡ outside defined.now }
    {
        Scope::new(Place::Outside, b"".as_slice(), defined)
    }

    /// Returns the scope in an instrument.
    pub fn in_instrument(defined: &'a NameSet<'s>) -> Scope<'a, 's>
        ensures { result ≡ in_instrument defined.now }
    {
        Scope::new(Place::Instrument, b"".as_slice(), defined)
    }

    /// Returns the scope in the definition of the opcode `own`.
    pub fn in_definition(own: &'a [u8], defined: &'a NameSet<'s>) -> Scope<'a, 's>
        ensures { result ≡ in_definition own.now defined.now }
    {
        Scope::new(Place::Definition, own, defined)
    }

    // A scope inside no `if`.
    fn new(place: Place, own: &'a [u8], defined: &'a NameSet<'s>) -> Scope<'a, 's>
        ensures { result ≡ record { place = place; depth = 0; own = own.now; defined = defined.now } }
    {
        Scope {
            place,
            depth: 0,
            own,
            defined,
        }
    }

    /// Returns the scope inside one more `if`.
    pub fn deeper(&self) -> Scope<'a, 's>
        requires { self.now.depth < most_nested_ifs }
        ensures { result ≡ deeper self.now }
    {
        Scope {
            place: self.place,
            depth: self.depth + 1,
            own: self.own,
            defined: self.defined,
        }
    }

    /// Returns the part of the orchestra that contains the line.
    pub fn place(&self) -> Place
        ensures { result ≡ self.now.place }
    {
        self.place
    }

    /// Returns the number of `if`s around the line.
    pub fn depth(&self) -> u32
        ensures { result ≡ self.now.depth }
    {
        self.depth
    }

    /// Whether `name` is the name of the definition around the line.
    pub fn is_own(&self, name: &[u8]) -> bool
        ensures { result ≡ is_own self.now name.now self.now.place }
    {
        matches!(self.place, Place::Definition) && self.own == name
    }

    /// Whether `name` is the name of a user-defined opcode.
    pub fn is_defined(&self, name: &[u8]) -> bool
        ensures { result ≡ has self.now.defined name.now }
    {
        self.defined.has(name)
    }

    /// Whether a symbol of this kind and with these bytes is an opcode, of the catalogue or user-defined.
    pub fn is_opcode(&self, text: &[u8], kind: Kind) -> bool
        ensures { result ≡ is_opcode self.now text.now kind }
    {
        match kind {
            Kind::Word(Word::Opcode(_)) => true,
            Kind::Word(Word::Field(_) | Word::Name | Word::Other) => self.is_defined(text),
            _ => false,
        }
    }

    /// Returns the kind of fault of a symbol that fits no rule: a special kind for some symbols, and
    /// otherwise `usual`.
    pub fn misfit_kind(&self, usual: OrcKind, kind: Kind) -> OrcKind
        ensures { result ≡ misfit_kind self.now usual kind }
    {
        match kind {
            Kind::Beyond | Kind::Sign(Sign::Beyond) | Kind::Word(Word::Foreign) => {
                OrcKind::NotInProfile
            }
            Kind::Word(Word::Keyword(keyword)) => self.keyword_kind(usual, keyword),
            Kind::End => self.early(self.open_kind()),
            _ => usual,
        }
    }

    // Between `opcode` and `endop`, no instrument and no other definition may begin.
    fn keyword_kind(&self, usual: OrcKind, keyword: Keyword) -> OrcKind
        ensures { result ≡ keyword_kind self.now usual keyword }
    {
        match (keyword, self.place) {
            (Keyword::Endin | Keyword::Endop, _) => self.early(usual),
            (Keyword::Instr, Place::Instrument) => OrcKind::NestedInstr,
            (Keyword::Instr | Keyword::Opcode, Place::Definition) => OrcKind::Unexpected,
            (Keyword::Xin | Keyword::Xout, Place::Definition) => OrcKind::XinXout,
            _ => usual,
        }
    }

    // Inside an `if`, the end of the text or of the enclosing part means that an `endif` is missing.
    fn early(&self, usual: OrcKind) -> OrcKind
        ensures { result ≡ early self.now usual }
    {
        if self.depth > 0 {
            OrcKind::MissingEndif
        } else {
            usual
        }
    }

    fn open_kind(&self) -> OrcKind
        ensures { result ≡ open_kind self.now.place }
    {
        match self.place {
            Place::Outside => OrcKind::Unexpected,
            Place::Instrument => OrcKind::MissingEndin,
            Place::Definition => OrcKind::MissingEndop,
        }
    }
}
