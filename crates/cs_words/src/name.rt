// The first letters of a variable's name, which determine its rate and whether all notes share it.
ghost use Rattle.std.specs.Prelude.{◌≡◌};
ghost use Rattle.cs_words.specs.Names.{is_rate_letter, letter_rate, is_name, is_global, name_rate};

use cs_base::Rate;

/// Whether a byte is a letter for a rate: i, k or a.
pub fn is_rate_letter(byte: u8) -> bool
    ensures { result ≡ is_rate_letter byte }
{
    byte == b'i' || byte == b'k' || byte == b'a'
}

/// Returns the rate of a letter: i-rate for i, k-rate for k, and a-rate for any other.
pub fn letter_rate(byte: u8) -> Rate
    ensures { result ≡ letter_rate byte }
{
    match byte {
        b'i' => Rate::Init,
        b'k' => Rate::Control,
        _ => Rate::Audio,
    }
}

/// Whether a word begins like a variable's name: with i, k, a, gi, gk or ga.
pub fn is_name(word: &[u8]) -> bool
    ensures { result ≡ is_name word.now }
{
    match word {
        [] => false,
        [b] => is_rate_letter(*b),
        [b, c, ..] => is_rate_letter(*b) || (*b == b'g' && is_rate_letter(*c)),
    }
}

/// Whether all notes share the variable with this name: the name begins with g.
pub fn is_global(name: &[u8]) -> bool
    ensures { result ≡ is_global name.now }
{
    matches!(name, [b'g', ..])
}

/// Returns the rate of a variable, from the first letter of its name, or from the second if the name begins
/// with g. The rate of a word that is no name is the a-rate, unless the letter in that position is i or k.
pub fn name_rate(name: &[u8]) -> Rate
    ensures { result ≡ name_rate name.now }
{
    match name {
        [] => Rate::Audio,
        [b] => letter_rate(*b),
        [b, c, ..] => letter_rate(if *b == b'g' { *c } else { *b }),
    }
}
