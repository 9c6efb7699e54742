// The first piece of a text: the lexical rule that its first byte selects, and its length.
ghost use Rattle.std.specs.Prelude.{◌≡◌, ◌<◌, ◌≤◌, ◌==◌, length, drop, IfOk};
ghost use Rattle.std.specs.{List.list_all, Char.is_ascii_digit};
ghost use Rattle.cs_base.specs.Lines.{is_blank, begins, begins_with};
ghost use Rattle.cs_lex.specs.{Bytes.is_letter, Bytes.is_word_byte, Bytes.is_allowed, inner.Front.point_front};
ghost use Rattle.cs_lex.specs.inner.Front.{front_of, run, comment_front, sign_front, slash_front, joined_front};
ghost use Rattle.cs_lex.specs.inner.Front.{word_front, quoted_len, text_front, numeral_len, number_front, digit_front};

use crate::Mark;
use crate::class::{Class, is_allowed, is_letter, is_long_sign, is_word_byte};
use cs_base::{OrcKind, begins_comment, comment_len, is_blank, is_open_comment, read_decimal};

/// The first piece of a text: a token with its mark, or a gap between tokens (`None`), and its length in
/// bytes.
#[derive(Clone, Copy)]
pub struct Front {
    pub mark: Option<Mark>,
    pub len: usize,
}

impl Front {
    fn gap(len: usize) -> Front
        ensures { result ≡ record { mark = None; len = len } }
    {
        Front { mark: None, len }
    }

    fn token(mark: Mark, len: usize) -> Front
        ensures { result ≡ record { mark = Some mark; len = len } }
    {
        Front {
            mark: Some(mark),
            len,
        }
    }

    /// Returns the first piece of a text, or the fault at its start.
    pub fn of(text: &[u8]) -> Result<Front, OrcKind>
        requires { 0 < length text.now }
        ensures value { result ≡ front_of text.now }
        ensures within { IfOk result (λ f. (0 < f.len) × (f.len ≤ length text.now)) }
    {
        by_first_byte(text)
    }
}

fn by_first_byte(text: &[u8]) -> Result<Front, OrcKind>
    requires { 0 < length text.now }
    ensures { result ≡ front_of text.now }
{
    match Class::of(text[0]) {
        Class::Letter => Ok(word(text)),
        Class::Digit => after_digit(text),
        Class::Blank => Ok(Front::gap(1)),
        Class::LineFeed => Ok(Front::token(Mark::NewLine, 1)),
        Class::Quote => quoted(&text[1..]),
        Class::Point => after_point(text),
        Class::Slash => after_slash(text),
        Class::Semicolon => comment(text),
        Class::Backslash => joined(&text[1..]),
        Class::Sign => Ok(sign(text)),
        Class::Stray => Err(OrcKind::BadToken),
        Class::Bad => Err(OrcKind::BadByte),
    }
}

fn word(text: &[u8]) -> Front
    ensures { word_front text.now ≡ Ok result }
{
    Front::token(Mark::Word, word_len(text))
}

fn after_digit(text: &[u8]) -> Result<Front, OrcKind>
    ensures { result ≡ digit_front text.now }
{
    if begins_with(text, b"0dbfs") && !begins_with_word_byte(text, 5) {
        return Ok(Front::token(Mark::Word, 5));
    }
    number(text)
}

fn after_point(text: &[u8]) -> Result<Front, OrcKind>
    requires { 0 < length text.now }
    ensures { result ≡ point_front text.now }
{
    if digits_len(&text[1..]) == 0 {
        return Err(OrcKind::BadToken);
    }
    number(text)
}

fn number(text: &[u8]) -> Result<Front, OrcKind>
    ensures { result ≡ number_front text.now }
{
    let len = numeral_len(text);
    if begins_with_letter(text, len) {
        return Err(OrcKind::BadNumber);
    }
    match read_decimal(&text[..len]) {
        Some(decimal) => Ok(Front::token(Mark::Number(decimal.num()), len)),
        None => Err(OrcKind::BadNumber),
    }
}

// The length in bytes of the decimal at the start of a text: digits, a point, digits.
fn numeral_len(text: &[u8]) -> usize
    ensures value { result ≡ numeral_len text.now }
    ensures within { result ≤ length text.now }
{
    let whole = digits_len(text);
    if whole < text.len() && text[whole] == b'.' {
        whole + 1 + digits_len(&text[whole + 1..])
    } else {
        whole
    }
}

// The quoted text whose opening quotation mark is just before `rest`.
fn quoted(rest: &[u8]) -> Result<Front, OrcKind>
    ensures { result ≡ text_front rest.now }
{
    let len = quoted_len(rest);
    if !all_allowed(&rest[..len]) {
        return Err(OrcKind::BadByte);
    }
    if len < rest.len() && rest[len] == b'"' {
        Ok(Front::token(Mark::Text, len + 2))
    } else {
        Err(OrcKind::BadToken)
    }
}

fn after_slash(text: &[u8]) -> Result<Front, OrcKind>
    requires { 0 < length text.now }
    ensures { result ≡ slash_front text.now }
{
    if begins_comment(text) {
        comment(text)
    } else {
        Ok(sign(text))
    }
}

fn comment(text: &[u8]) -> Result<Front, OrcKind>
    ensures { result ≡ comment_front text.now }
{
    if is_open_comment(text) {
        return Err(OrcKind::OpenComment);
    }
    Ok(Front::gap(comment_len(text)))
}

// The joined line whose `\` is just before `rest`.
fn joined(rest: &[u8]) -> Result<Front, OrcKind>
    ensures { result ≡ joined_front rest.now }
{
    let blanks = blanks_len(rest);
    if blanks < rest.len() && rest[blanks] == b'\n' {
        Ok(Front::gap(blanks + 2))
    } else {
        Err(OrcKind::BadToken)
    }
}

fn sign(text: &[u8]) -> Front
    requires { 0 < length text.now }
    ensures { sign_front text.now ≡ Ok result }
{
    let long = text.len() > 1 && is_long_sign(text[0], text[1]);
    Front::token(Mark::Sign, if long { 2 } else { 1 })
}

fn begins_with(text: &[u8], front: &[u8]) -> bool
    ensures { result ≡ begins_with front.now text.now }
{
    text.starts_with(front)
}

fn begins_with_letter(text: &[u8], at: usize) -> bool
    ensures { result ≡ begins is_letter (drop at text.now) }
{
    at < text.len() && is_letter(text[at])
}

fn begins_with_word_byte(text: &[u8], at: usize) -> bool
    ensures { result ≡ begins is_word_byte (drop at text.now) }
{
    at < text.len() && is_word_byte(text[at])
}

fn word_len(text: &[u8]) -> usize
    ensures { result ≡ run is_word_byte text.now }
{
    text.iter().take_while(|byte| is_word_byte(**byte)).count()
}

fn digits_len(text: &[u8]) -> usize
    ensures value { result ≡ run is_ascii_digit text.now }
    ensures within { result ≤ length text.now }
{
    text.iter().take_while(|byte| byte.is_ascii_digit()).count()
}

fn blanks_len(text: &[u8]) -> usize
    ensures { result ≡ run is_blank text.now }
{
    text.iter().take_while(|byte| is_blank(**byte)).count()
}

// The number of bytes before the next quotation mark, line feed or end.
fn quoted_len(text: &[u8]) -> usize
    ensures { result ≡ quoted_len text.now }
{
    text.iter()
        .take_while(|byte| **byte != b'"' && **byte != b'\n')
        .count()
}

fn all_allowed(text: &[u8]) -> bool
    ensures { result ≡ list_all is_allowed text.now }
{
    text.iter().all(|byte| is_allowed(*byte))
}
