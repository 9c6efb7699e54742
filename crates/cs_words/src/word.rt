// The meanings of the words.
ghost use Rattle.std.specs.{Prelude.◌≡◌, List.list_any, Str.bytes_eq};
ghost use Rattle.cs_words.specs.Words.{listed_word, is_foreign, is_leading, field_of, word_of};

use crate::catalogue::{Opcode, find_opcode};
use crate::name::is_name;
use crate::table::looked_up;

/// The keywords, which can't name a variable or an opcode.
#[derive(Clone, Copy, PartialEq, Eq)]
pub enum Keyword {
    Instr,
    Endin,
    If,
    Then,
    Elseif,
    Else,
    Endif,
    Opcode,
    Endop,
    Xin,
    Xout,
}

/// A setting of the header, which an expression may also read.
#[derive(Clone, Copy, PartialEq, Eq)]
pub enum HeadName {
    /// Frames per second.
    Sr,
    /// Control cycles per second.
    Kr,
    /// Frames per control cycle.
    Ksmps,
    /// Number of channels.
    Nchnls,
    /// The value of full scale.
    Dbfs,
}

/// A function that an expression may call.
#[derive(Clone, Copy, PartialEq, Eq)]
pub enum Func {
    Int,
    Frac,
    Abs,
    Floor,
    Cpspch,
    I,
}

/// The meaning of a word.
#[derive(Clone, Copy, PartialEq, Eq)]
pub enum Word {
    Keyword(Keyword),
    Header(HeadName),
    Func(Func),
    Opcode(Opcode),
    /// A word of Csound that the profile lacks.
    Foreign,
    /// `p1` to `p100`, with its number.
    Field(u32),
    /// A word that begins like a variable: with i, k, a, gi, gk or ga.
    Name,
    /// Any other word.
    Other,
}

// The keywords, the header's settings, and the functions.
const WORDS: [(&str, Word); 22] = [
    ("instr", Word::Keyword(Keyword::Instr)),
    ("endin", Word::Keyword(Keyword::Endin)),
    ("if", Word::Keyword(Keyword::If)),
    ("then", Word::Keyword(Keyword::Then)),
    ("elseif", Word::Keyword(Keyword::Elseif)),
    ("else", Word::Keyword(Keyword::Else)),
    ("endif", Word::Keyword(Keyword::Endif)),
    ("opcode", Word::Keyword(Keyword::Opcode)),
    ("endop", Word::Keyword(Keyword::Endop)),
    ("xin", Word::Keyword(Keyword::Xin)),
    ("xout", Word::Keyword(Keyword::Xout)),
    ("sr", Word::Header(HeadName::Sr)),
    ("kr", Word::Header(HeadName::Kr)),
    ("ksmps", Word::Header(HeadName::Ksmps)),
    ("nchnls", Word::Header(HeadName::Nchnls)),
    ("0dbfs", Word::Header(HeadName::Dbfs)),
    ("int", Word::Func(Func::Int)),
    ("frac", Word::Func(Func::Frac)),
    ("abs", Word::Func(Func::Abs)),
    ("floor", Word::Func(Func::Floor)),
    ("cpspch", Word::Func(Func::Cpspch)),
    ("i", Word::Func(Func::I)),
];

// The words of Csound that the profile lacks.
const FOREIGN: [&str; 41] = [
    "goto", "igoto", "kgoto", "cigoto", "ckgoto", "cngoto", "timout", "reinit", "rigoto",
    "rireturn", "while", "until", "do", "od", "fi", "ithen", "kthen", "turnoff2", "event", "ftgen",
    "tone", "atone", "reson", "areson", "comb", "alpass", "expseg", "expon", "rand", "randi",
    "randh", "ampdb", "ampdbfs", "dbamp", "sqrt", "exp", "log", "sin", "cos", "tan", "pow",
];

/// Returns the meaning of a word.
#[tactic(auto, unfolding(crate::specs::Words::word_of))]
pub fn word_of(word: &[u8]) -> Word
    ensures { result ≡ word_of word.now }
{
    if let Some(listed) = listed_word(word) {
        return listed;
    }
    if let Some(opcode) = find_opcode(word) {
        return Word::Opcode(opcode);
    }
    if is_foreign(word) {
        return Word::Foreign;
    }
    match field_of(word) {
        Some(number) => Word::Field(number),
        None if is_name(word) => Word::Name,
        None => Word::Other,
    }
}

#[tactic(auto, unfolding(crate::specs::Words::listed_word))]
fn listed_word(word: &[u8]) -> Option<Word>
    ensures { result ≡ listed_word word.now }
{
    looked_up(&WORDS, word)
}

#[tactic(auto, unfolding(crate::specs::Words::is_foreign))]
fn is_foreign(word: &[u8]) -> bool
    ensures { result ≡ is_foreign word.now }
{
    is_listed(&FOREIGN, word)
}

fn is_listed(words: &[&str], word: &[u8]) -> bool
    ensures { result ≡ list_any (λ listed. bytes_eq word.now listed.now) words.now }
{
    words.iter().any(|listed| word == listed.as_bytes())
}

// The number of a field: `p`, followed by a number from 1 to 100 without leading zeros.
#[tactic(auto, unfolding(crate::specs::Words::field_of))]
fn field_of(word: &[u8]) -> Option<u32>
    ensures { result ≡ field_of word.now }
{
    match word {
        [p, b] if *p == b'p' && is_leading(*b) => Some(u32::from(*b - b'0')),
        [p, b, c] if *p == b'p' && is_leading(*b) && c.is_ascii_digit() => {
            Some(u32::from(*b - b'0') * 10 + u32::from(*c - b'0'))
        }
        [_, _, _, _] if word == b"p100".as_slice() => Some(100),
        _ => None,
    }
}

fn is_leading(byte: u8) -> bool
    ensures { result ≡ is_leading byte }
{
    b'1' <= byte && byte <= b'9'
}
