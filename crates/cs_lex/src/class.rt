// The bytes that are allowed, and the tokens that each may begin.
ghost use Rattle.std.specs.{Prelude.◌≡◌, Prelude.◌==◌, Prelude.codes, List.list_any};
ghost use Rattle.cs_lex.specs.Bytes.{is_letter, is_word_byte, is_allowed, is_short_sign, is_long_sign};
ghost use Rattle.cs_lex.specs.inner.Front.{class_of};

use cs_base::is_blank;

/// The class of a byte: the kind of token, or of separator, that it may begin.
#[derive(Clone, Copy)]
pub enum Class {
    Letter,
    Digit,
    Blank,
    LineFeed,
    Quote,
    Point,
    Slash,
    Semicolon,
    Backslash,
    Sign,
    Stray,
    Bad,
}

impl Class {
    /// Returns the class of a byte.
    pub fn of(byte: u8) -> Class
        ensures { result ≡ class_of byte }
    {
        if is_letter(byte) {
            Class::Letter
        } else if byte.is_ascii_digit() {
            Class::Digit
        } else if is_blank(byte) {
            Class::Blank
        } else if byte == b'\n' {
            Class::LineFeed
        } else if byte == b'"' {
            Class::Quote
        } else if byte == b'.' {
            Class::Point
        } else if byte == b'/' {
            Class::Slash
        } else if byte == b';' {
            Class::Semicolon
        } else if byte == b'\\' {
            Class::Backslash
        } else if is_short_sign(byte) {
            Class::Sign
        } else if is_allowed(byte) {
            Class::Stray
        } else {
            Class::Bad
        }
    }
}

/// Whether a byte is a letter or `_`.
pub fn is_letter(byte: u8) -> bool
    ensures { result ≡ is_letter byte }
{
    byte.is_ascii_alphabetic() || byte == b'_'
}

/// Whether a byte is a letter, a digit or `_`.
pub fn is_word_byte(byte: u8) -> bool
    ensures { result ≡ is_word_byte byte }
{
    is_letter(byte) || byte.is_ascii_digit()
}

/// Whether a byte is allowed outside comments.
pub fn is_allowed(byte: u8) -> bool
    ensures { result ≡ is_allowed byte }
{
    (32 <= byte && byte <= 126) || byte == b'\t' || byte == b'\n' || byte == b'\r'
}

/// Whether a byte is a sign, including signs that the profile lacks.
pub fn is_short_sign(byte: u8) -> bool
    ensures { result ≡ is_short_sign byte }
{
    b"(),=+-*/%<>?:[]{}#$^!~&|".iter().any(|sign| byte == *sign)
}

/// Whether the two bytes form one sign.
pub fn is_long_sign(first: u8, second: u8) -> bool
    ensures { result ≡ is_long_sign first second }
{
    (second == b'=' && takes_equals(first)) || (first == second && is_doubled(first))
}

fn takes_equals(first: u8) -> bool
    ensures { result ≡ list_any (λ sign. first == sign) (codes "+<>=!") }
{
    b"+<>=!".iter().any(|sign| first == *sign)
}

fn is_doubled(first: u8) -> bool
    ensures { result ≡ list_any (λ sign. first == sign) (codes "&|") }
{
    b"&|".iter().any(|sign| first == *sign)
}
