// The text without its comments.
ghost use Rattle.std.specs.Prelude.{◌≡◌, ◌==◌, IfOk, if◌then◌else◌};
ghost use Rattle.cs_base.specs.Lines.{space};
ghost use Rattle.cs_score.specs.{Plain.plain_of, inner.Hidden.hidden_here};

use cs_base::comment_len;
use std::alloc::{AllocError, Global};

/// Returns the text with a space instead of each byte of a comment, so that all other bytes keep their
/// places.
pub fn plain(alloc: Global, text: &[u8]) -> Result<Vec<u8>, AllocError>
    ensures { IfOk result (λ plain. plain.items ≡ plain_of text.now) }
{
    let mut plain = Vec::with_capacity(alloc, text.len())?;
    // The number of bytes from `at` on that belong to a comment which began earlier.
    let mut hidden = 0;
    for at in 0..text.len() {
        let here = hidden_here(hidden, &text[at..]);
        plain.push(shown(here, text[at]))?;
        hidden = here.saturating_sub(1);
    }
    Ok(plain)
}

// The number of bytes from here on that belong to a comment, whether it began earlier (`hidden`) or begins
// here.
fn hidden_here(hidden: usize, text: &[u8]) -> usize
    ensures { result ≡ hidden_here hidden text.now }
{
    if hidden == 0 {
        comment_len(text)
    } else {
        hidden
    }
}

fn shown(hidden: usize, byte: u8) -> u8
    ensures { result ≡ (if hidden == 0 then byte else space) }
{
    if hidden == 0 { byte } else { b' ' }
}
