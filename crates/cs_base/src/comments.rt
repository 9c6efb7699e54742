// Comments, which are the same in both languages.
ghost use Rattle.std.specs.Prelude.{◌≡◌, ◌≤◌, ◌<◌, ◌+◌, length, drop, true, not, if◌then◌else◌};
ghost use Rattle.std.specs.List.{list_any};
ghost use Rattle.cs_base.specs.Comments.{tails, closes, close_of, begins_line_comment, begins_block_comment};
ghost use Rattle.cs_base.specs.Comments.{begins_comment, is_open_comment, comment_len};

use crate::lines::line_len;

/// Whether a text begins with a comment: with `;`, `//` or `/*`.
pub fn begins_comment(text: &[u8]) -> bool
    ensures { result ≡ begins_comment text.now }
{
    begins_line_comment(text) || begins_block_comment(text)
}

/// Whether a text begins with a `/*` that is never closed by a `*/`.
pub fn is_open_comment(text: &[u8]) -> bool
    ensures { result ≡ is_open_comment text.now }
{
    begins_block_comment(text) && !has_close(&text[2..])
}

/// Returns the length in bytes of the comment at the start of a text, or 0 if no comment begins there. A
/// comment from `;` or `//` ends before the line feed; a comment from `/*` includes the next `*/`, or runs to
/// the end of the text if there is none.
pub fn comment_len(text: &[u8]) -> usize
    ensures value { result ≡ comment_len text.now }
    ensures within { result ≤ length text.now }
{
    if begins_line_comment(text) {
        line_len(text)
    } else if begins_block_comment(text) {
        block_len(text)
    } else {
        0
    }
}

fn begins_line_comment(text: &[u8]) -> bool
    ensures { result ≡ begins_line_comment text.now }
{
    text.starts_with(b";") || text.starts_with(b"//")
}

fn begins_block_comment(text: &[u8]) -> bool
    ensures value { result ≡ begins_block_comment text.now }
    ensures wide { result ≡ true → 2 ≤ length text.now }
{
    text.starts_with(b"/*")
}

// The length in bytes of a comment that begins with `/*`.
fn block_len(text: &[u8]) -> usize
    requires { 2 ≤ length text.now }
    ensures value { result ≡ (if not (list_any closes (tails (drop 2 text.now))) then length text.now
        else close_of (drop 2 text.now) + 4) }
    ensures within { result ≤ length text.now }
{
    let close = close_of(&text[2..]);
    if close + 2 < text.len() {
        close + 4
    } else {
        text.len()
    }
}

fn has_close(text: &[u8]) -> bool
    ensures { result ≡ list_any closes (tails text.now) }
{
    close_of(text) < text.len()
}

// The index of the first `*/`, or the length of the text if there is none.
fn close_of(text: &[u8]) -> usize
    ensures value { result ≡ close_of text.now }
    ensures within { result ≤ length text.now }
{
    for at in 0..text.len() {
        if text[at..].starts_with(b"*/") {
            return at;
        }
    }
    text.len()
}
