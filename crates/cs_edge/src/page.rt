// A text that is written into a buffer, piece by piece.
ghost use Rattle.std.specs.Prelude.{ℕ, List, ◌++◌, ◌<◌, decimal};
ghost use Rattle.std.specs.Fmt.{signed_decimal};
ghost use Rattle.cs_edge.specs.inner.Page.{Shows};

use itoa::Buffer;

/// Appends a piece to the text in a buffer, and returns the number of bytes used, or `None` once the text has
/// outgrown the buffer.
pub fn add_piece(out: &mut [u8], used: Option<usize>, piece: &[u8]) -> Option<usize>
    ensures { (text : List ℕ) → Shows used out.old text → Shows result out.new (text ++ piece.now) }
{
    let from = used?;
    if out.len() < from || out.len() - from < piece.len() {
        return None;
    }
    for i in 0..piece.len() {
        out[from + i] = piece[i];
    }
    Some(from + piece.len())
}

/// Appends a number in decimal.
pub fn add_number(out: &mut [u8], used: Option<usize>, n: u64) -> Option<usize>
    ensures { (text : List ℕ) → Shows used out.old text → Shows result out.new (text ++ decimal n) }
{
    add_piece(out, used, Buffer::new().format(n).as_bytes())
}

/// Appends a number in decimal, after a minus sign if it is negative.
pub fn add_signed(out: &mut [u8], used: Option<usize>, z: i64) -> Option<usize>
    ensures { (text : List ℕ) → Shows used out.old text → Shows result out.new (text ++ signed_decimal z) }
{
    add_piece(out, used, Buffer::new().format(z).as_bytes())
}
