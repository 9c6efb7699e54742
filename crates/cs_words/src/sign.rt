// The meanings of the signs.
ghost use Rattle.std.specs.Prelude.{◌≡◌};
ghost use Rattle.cs_words.specs.Signs.{sign_of, is_arithmetic, is_logic};

use crate::table::looked_up;

/// An operator between two expressions.
#[derive(Clone, Copy, PartialEq, Eq)]
pub enum BinOp {
    Or,
    And,
    Less,
    Greater,
    LessEqual,
    GreaterEqual,
    Equal,
    NotEqual,
    Add,
    Sub,
    Mul,
    Div,
    Rem,
}

impl BinOp {
    /// Whether this is `+`, `-`, `*`, `/` or `%`; the other operators yield truth values.
    pub fn is_arithmetic(self) -> bool
        ensures { result ≡ is_arithmetic self }
    {
        matches!(
            self,
            BinOp::Add | BinOp::Sub | BinOp::Mul | BinOp::Div | BinOp::Rem
        )
    }

    /// Whether this is `&&` or `||`.
    pub fn is_logic(self) -> bool
        ensures { result ≡ is_logic self }
    {
        matches!(self, BinOp::And | BinOp::Or)
    }
}

/// The meaning of a sign.
#[derive(Clone, Copy, PartialEq, Eq)]
pub enum Sign {
    Open,
    Close,
    Comma,
    Equals,
    PlusEquals,
    Question,
    Colon,
    Operator(BinOp),
    /// A sign that the profile lacks.
    Beyond,
}

const SIGNS: [(&str, Sign); 20] = [
    ("(", Sign::Open),
    (")", Sign::Close),
    (",", Sign::Comma),
    ("=", Sign::Equals),
    ("+=", Sign::PlusEquals),
    ("?", Sign::Question),
    (":", Sign::Colon),
    ("||", Sign::Operator(BinOp::Or)),
    ("&&", Sign::Operator(BinOp::And)),
    ("<", Sign::Operator(BinOp::Less)),
    (">", Sign::Operator(BinOp::Greater)),
    ("<=", Sign::Operator(BinOp::LessEqual)),
    (">=", Sign::Operator(BinOp::GreaterEqual)),
    ("==", Sign::Operator(BinOp::Equal)),
    ("!=", Sign::Operator(BinOp::NotEqual)),
    ("+", Sign::Operator(BinOp::Add)),
    ("-", Sign::Operator(BinOp::Sub)),
    ("*", Sign::Operator(BinOp::Mul)),
    ("/", Sign::Operator(BinOp::Div)),
    ("%", Sign::Operator(BinOp::Rem)),
];

/// Returns the meaning of a sign.
#[tactic(auto, unfolding(crate::specs::Signs::sign_of))]
pub fn sign_of(sign: &[u8]) -> Sign
    ensures { result ≡ sign_of sign.now }
{
    looked_up(&SIGNS, sign).unwrap_or(Sign::Beyond)
}
