// The tokens of a text.
use cs_base::{Items, Num};

/// The kind of a token. A Number has its value; every other token is identified by its bytes.
#[derive(Clone, Copy, Debug, PartialEq, Eq)]
pub enum Mark {
    /// A letter or `_`, followed by letters, digits and `_`; also `0dbfs`.
    Word,
    /// A decimal without a sign, with its value.
    Number(Num),
    /// A quoted text on one line; the quotation marks belong to its bytes.
    Text,
    /// A sign, including signs that the profile lacks.
    Sign,
    /// The end of a statement: one or more line feeds.
    NewLine,
    /// The end of the text.
    End,
}

/// A token: the bytes of the text from index `from` (inclusive) to `to` (exclusive); `line` is its line in
/// the file.
#[derive(Clone, Copy, Debug, PartialEq, Eq)]
pub struct Token {
    pub mark: Mark,
    pub from: u32,
    pub to: u32,
    pub line: u32,
}

/// The tokens of an orchestra, in order. The last one is End.
pub type Tokens = Items<Token>;
