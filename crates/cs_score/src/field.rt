// The meaning of a field: a number, a mark, or neither.
ghost use Rattle.std.specs.Prelude.{◌≡◌, true, ◌==◌, ◌≤ℤ◌, pos, neg_ℤ, codes};
ghost use Rattle.std.specs.List.{list_any};
ghost use Rattle.cs_base.specs.{Lines.begins, declared.decimal.Decimal.Decimal};
ghost use Rattle.cs_score.specs.Fields.{field_of, is_foreign, is_only, number_field, number_of, signed, signed_of};
ghost use Rattle.cs_score.specs.Fields.{caret_field, raw_of, whole_of, size_of, is_whole, is_below_zero};
ghost use Rattle.cs_score.specs.Fields.{is_negative_time, is_same_instrument};

use cs_base::{Decimal, Num, ScoreKind, read_decimal};

/// A number as a field writes it: a decimal, and whether it has a minus sign.
#[derive(Clone, Copy)]
pub struct Signed {
    pub minus: bool,
    pub size: Decimal,
}

/// p1 of an `i` statement: the number of an instrument, and whether a minus sign makes the statement a stop.
#[derive(Clone, Copy, PartialEq, Eq)]
pub struct InstrumentNumber {
    pub number: u32,
    pub stop: bool,
}

impl InstrumentNumber {
    /// Whether a statement has the same p1 as the statement before, so that it continues it and carries the
    /// fields it omits.
    pub fn is_same(self, before: InstrumentNumber) -> bool
        ensures { result ≡ is_same_instrument self before }
    {
        self == before
    }
}

impl Signed {
    /// The number's value: the decimal is rounded, then the sign is applied.
    pub fn num(self) -> Num
        ensures value { result ≡ raw_of self }
        ensures below { self.minus ≡ true → result ≤ℤ pos 0 }
    {
        if self.minus {
            negated(self.size.num())
        } else {
            self.size.num()
        }
    }

    /// The integer part, with the sign.
    pub fn whole(self) -> i64
        ensures { result ≡ whole_of self }
    {
        let whole = i64::from(self.size.whole);
        if self.minus { -whole } else { whole }
    }

    /// The absolute value in millionths. Digits after the sixth are dropped.
    pub fn millionths(self) -> u64
        ensures { result ≡ size_of self }
    {
        self.size.millionths()
    }

    /// Whether all digits after the decimal point are 0.
    pub fn is_whole(self) -> bool
        ensures { result ≡ is_whole self }
    {
        self.size.billionths == 0
    }

    /// Whether the number is below 0, by all nine decimal digits.
    pub fn is_below_zero(self) -> bool
        ensures { result ≡ is_below_zero self }
    {
        self.minus && (self.size.whole > 0 || self.size.billionths > 0)
    }

    /// Whether the number is below 0 as a time, which has only six decimal digits.
    pub fn is_negative_time(self) -> bool
        ensures { result ≡ is_negative_time self }
    {
        self.minus && self.millionths() > 0
    }
}

fn negated(n: Num) -> Num
    requires { pos 0 ≤ℤ n }
    ensures { result ≡ neg_ℤ n }
{
    Num::of_raw(-n.raw())
}

/// The meaning of a field, which doesn't depend on its place in the statement.
#[derive(Clone, Copy)]
pub enum Field {
    /// A decimal, with or without a sign.
    Number(Signed),
    /// `.`: the same field of the previous statement.
    Same,
    /// `+`: the time at which the previous note ends.
    After,
    /// `^+x`: x beats after the previous note starts.
    Ahead(Decimal),
    /// A form that isn't in the profile.
    Foreign,
    /// Neither a number nor a mark.
    Unreadable,
}

impl Field {
    /// The meaning of a word.
    pub fn of(word: &[u8]) -> Field
        ensures { result ≡ field_of word.now }
    {
        if is_only(b'.', word) {
            Field::Same
        } else if is_only(b'+', word) {
            Field::After
        } else if begins_with_byte(b'^', word) {
            after_caret(word)
        } else if begins_foreign(word) {
            Field::Foreign
        } else {
            number_field(word)
        }
    }

    /// The number of a field at a place that doesn't allow `+`. Fails with `dot` for a `.` that has nothing
    /// to carry.
    pub fn number(self, dot: ScoreKind) -> Result<Signed, ScoreKind>
        ensures { result ≡ number_of dot self }
    {
        match self {
            Field::Number(n) => Ok(n),
            Field::Same => Err(dot),
            Field::Foreign => Err(ScoreKind::NotInProfile),
            Field::After | Field::Ahead(_) | Field::Unreadable => Err(ScoreKind::BadNumber),
        }
    }
}

fn number_field(word: &[u8]) -> Field
    ensures { result ≡ number_field (signed_of word.now) }
{
    match signed_of(word) {
        Some(n) => Field::Number(n),
        None => Field::Unreadable,
    }
}

fn signed_of(word: &[u8]) -> Option<Signed>
    ensures { result ≡ signed_of word.now }
{
    match word {
        [b'-', size @ ..] => decimal_after(true, size),
        [b'+', size @ ..] => decimal_after(false, size),
        _ => decimal_after(false, word),
    }
}

fn decimal_after(minus: bool, text: &[u8]) -> Option<Signed>
    ensures { result ≡ signed minus text.now }
{
    let size = read_decimal(text)?;
    Some(Signed { minus, size })
}

// `^+x`, or a form that isn't in the profile.
fn after_caret(word: &[u8]) -> Field
    ensures { result ≡ caret_field word.now }
{
    if !word.starts_with(b"^+") {
        return Field::Foreign;
    }
    match read_decimal(&word[2..]) {
        Some(x) => Field::Ahead(x),
        None => Field::Foreign,
    }
}

fn is_only(byte: u8, word: &[u8]) -> bool
    ensures { result ≡ is_only byte word.now }
{
    word.len() == 1 && word[0] == byte
}

fn begins_with_byte(byte: u8, word: &[u8]) -> bool
    ensures { result ≡ begins (λ b. b == byte) word.now }
{
    word.len() > 0 && word[0] == byte
}

fn begins_foreign(word: &[u8]) -> bool
    ensures { result ≡ begins is_foreign word.now }
{
    word.len() > 0 && is_foreign(word[0])
}

fn is_foreign(byte: u8) -> bool
    ensures { result ≡ is_foreign byte }
{
    byte == b'"' || is_foreign_sign(byte)
}

fn is_foreign_sign(byte: u8) -> bool
    ensures { result ≡ list_any (λ sign. byte == sign) (codes "<>![{()~$@np") }
{
    b"<>![{()~$@np".iter().any(|sign| byte == *sign)
}
