// The kind of each token as the grammar sees it.
ghost use Rattle.std.specs.Prelude.{◌≡◌, ◌≤◌, ◌<◌, ◌+◌, ◌^◌, length};
ghost use Rattle.cs_grammar.specs.Kinds.{is, is_word, is_plain, ends_line};
ghost use Rattle.cs_grammar.specs.Symbols.{symbols_from, bytes_of, kind_after, unquoted, counted, next, after, Spanned};
ghost use Rattle.cs_grammar.specs.declared.symbol.Kind.TheVariants as kind;
ghost use Rattle.cs_words.specs.declared.word.Word.TheVariants as word;

use cs_base::{MOST_LINE_TOKENS, Num};
use cs_lex::{Mark, Token};
use cs_words::{Keyword, Sign, Word, sign_of, word_of};

/// The kind of a symbol.
#[derive(Clone, Copy)]
pub enum Kind {
    Word(Word),
    Number(Num),
    Text,
    Sign(Sign),
    /// Any token after the first `MOST_LINE_TOKENS` on its line.
    Beyond,
    NewLine,
    End,
}

impl Kind {
    /// Whether the symbol is a word, which includes keywords.
    pub fn is_word(self) -> bool
        ensures { result ≡ is_word self }
    {
        matches!(self, Kind::Word(_))
    }

    /// Whether the symbol is a word of the profile, but no keyword.
    pub fn is_plain(self) -> bool
        ensures { result ≡ is_plain self }
    {
        match self {
            Kind::Word(Word::Keyword(_) | Word::Foreign) => false,
            _ => self.is_word(),
        }
    }

    /// Whether the symbol ends a line: NewLine or End.
    pub fn ends_line(self) -> bool
        ensures { result ≡ ends_line self }
    {
        matches!(self, Kind::NewLine | Kind::End)
    }
}

/// The symbols that a rule of the grammar can expect.
#[derive(Clone, Copy)]
pub enum Expected {
    Open,
    Close,
    Comma,
    Equals,
    Question,
    Colon,
    Text,
    Then,
    Elseif,
    Else,
    Endif,
    Endin,
    Endop,
    Xin,
    Xout,
    End,
}

impl Expected {
    /// Whether a symbol of this kind is the expected one.
    pub fn is(self, kind: Kind) -> bool
        ensures { result ≡ is self kind }
    {
        match kind {
            Kind::Sign(sign) => self.is_sign(sign),
            Kind::Word(Word::Keyword(keyword)) => self.is_keyword(keyword),
            Kind::Text => matches!(self, Expected::Text),
            Kind::End => matches!(self, Expected::End),
            _ => false,
        }
    }

    fn is_sign(self, sign: Sign) -> bool
        ensures { result ≡ is self (kind.Sign sign) }
    {
        match self {
            Expected::Open => matches!(sign, Sign::Open),
            Expected::Close => matches!(sign, Sign::Close),
            Expected::Comma => matches!(sign, Sign::Comma),
            Expected::Equals => matches!(sign, Sign::Equals),
            Expected::Question => matches!(sign, Sign::Question),
            Expected::Colon => matches!(sign, Sign::Colon),
            _ => false,
        }
    }

    fn is_keyword(self, keyword: Keyword) -> bool
        ensures { result ≡ is self (kind.Word (word.Keyword keyword)) }
    {
        match self {
            Expected::Then => matches!(keyword, Keyword::Then),
            Expected::Elseif => matches!(keyword, Keyword::Elseif),
            Expected::Else => matches!(keyword, Keyword::Else),
            Expected::Endif => matches!(keyword, Keyword::Endif),
            Expected::Endin => matches!(keyword, Keyword::Endin),
            Expected::Endop => matches!(keyword, Keyword::Endop),
            Expected::Xin => matches!(keyword, Keyword::Xin),
            Expected::Xout => matches!(keyword, Keyword::Xout),
            _ => false,
        }
    }
}

/// Returns the bytes of a token.
pub fn bytes_of<'s>(source: &'s [u8], token: &Token) -> &'s [u8]
    requires { (token.now.from ≤ token.now.to) × (token.now.to ≤ length source.now) }
    ensures { result.now ≡ bytes_of source.now token.now }
{
    &source[token.from as usize..token.to as usize]
}

// The kind of a token that follows `place` tokens on its line.
fn kind_after(place: usize, mark: Mark, bytes: &[u8]) -> Kind
    ensures { result ≡ kind_after place mark bytes.now }
{
    match mark {
        Mark::NewLine => Kind::NewLine,
        Mark::End => Kind::End,
        _ if place >= MOST_LINE_TOKENS => Kind::Beyond,
        Mark::Word => Kind::Word(word_of(bytes)),
        Mark::Number(value) => Kind::Number(value),
        Mark::Text => Kind::Text,
        Mark::Sign => Kind::Sign(sign_of(bytes)),
    }
}

/// Returns the bytes of a token, without the quotation marks of a quoted text.
pub fn unquoted(mark: Mark, bytes: &[u8]) -> &[u8]
    ensures { result.now ≡ unquoted mark bytes.now }
{
    match mark {
        Mark::Text if bytes.len() >= 2 => &bytes[1..bytes.len() - 1],
        Mark::Text => &bytes[..0],
        _ => bytes,
    }
}

/// Returns the number of tokens on the line including this one, or 0 after a NewLine, which ends the line.
pub fn counted(place: usize, mark: Mark) -> usize
    requires { place < 2 ^ 63 }
    ensures { result ≡ counted place mark }
{
    match mark {
        Mark::NewLine => 0,
        _ => place + 1,
    }
}

/// Returns the kind of the first token, which follows `place` tokens on its line; End if there is none.
pub fn first_kind(source: &[u8], place: usize, tokens: &[Token]) -> Kind
    requires { Spanned (length source.now) tokens.now }
    ensures { result ≡ (next (symbols_from source.now place tokens.now)).kind }
{
    match tokens {
        [] => Kind::End,
        [token, ..] => kind_after(place, token.mark, bytes_of(source, token)),
    }
}

/// Returns the kind of the second token, if the first one follows `place` tokens on its line; End if there is
/// none.
pub fn second_kind(source: &[u8], place: usize, tokens: &[Token]) -> Kind
    requires spanned { Spanned (length source.now) tokens.now }
    requires short { place + length tokens.now < 2 ^ 63 }
    ensures { result ≡ (next (after (symbols_from source.now place tokens.now))).kind }
{
    match tokens {
        [] => Kind::End,
        [token, rest @ ..] => first_kind(source, counted(place, token.mark), rest),
    }
}
