// The statement of a line: its letter and its fields.
ghost use Rattle.std.specs.Prelude.{◌≡◌, ◌<◌, ◌≤◌, length, map, IfOk};
ghost use Rattle.std.specs.List.{prefix_len};
ghost use Rattle.cs_score.specs.Fields.{field_of};
ghost use Rattle.cs_score.specs.Rows.{letter_of, is_word_byte, words};

use crate::field::Field;
use cs_base::{Items, is_blank};
use std::alloc::{AllocError, Global};

/// The kind of a statement, from its first byte.
#[derive(Clone, Copy)]
pub enum StatementLetter {
    /// `i`
    Note,
    /// `f`
    Table,
    /// `t`
    Tempo,
    /// `b`
    Base,
    /// `s`
    Section,
    /// `e`
    End,
    /// A letter that no statement of the profile has.
    Other,
    /// A byte that isn't a letter.
    Stray,
}

impl StatementLetter {
    /// The kind of a statement that begins with this byte.
    pub fn of(byte: u8) -> StatementLetter
        ensures { result ≡ letter_of byte }
    {
        match byte {
            b'i' => StatementLetter::Note,
            b'f' => StatementLetter::Table,
            b't' => StatementLetter::Tempo,
            b'b' => StatementLetter::Base,
            b's' => StatementLetter::Section,
            b'e' => StatementLetter::End,
            _ if byte.is_ascii_alphabetic() => StatementLetter::Other,
            _ => StatementLetter::Stray,
        }
    }
}

/// A statement as it is written on a line. Lines count from 1.
#[derive(Drop)]
pub struct Row {
    pub line: u32,
    pub letter: StatementLetter,
    pub fields: Items<Field>,
}

/// The fields of a line, which are separated by blanks.
pub fn fields_of(alloc: Global, line: &[u8]) -> Result<Items<Field>, AllocError>
    ensures { IfOk result (λ fields. fields ≡ map field_of (words line.now)) }
{
    let mut fields = Items::new(alloc);
    let mut at = 0;
    while at < line.len() {
        if is_blank(line[at]) {
            at += 1;
        } else {
            let len = word_len(&line[at..]);
            fields.push(Field::of(&line[at..at + len]))?;
            at += len;
        }
    }
    Ok(fields)
}

fn word_len(text: &[u8]) -> usize
    ensures value { result ≡ prefix_len is_word_byte text.now }
    ensures within { result ≤ length text.now }
{
    text.iter().take_while(|byte| !is_blank(**byte)).count()
}
