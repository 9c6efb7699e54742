// A buffer in front of a writer; it passes on only complete lines.
ghost use Rattle.std.specs.Prelude.{◌≡◌, ◌≢◌, ◌⊎◌, ◌<◌, ◌≤◌, ◌-◌, [], ◌++◌, All, length, drop, slice_index_or, OnOk};
ghost use Rattle.std.specs.{Prelude.OnErr, Io.KnownBytes.Appends, Io.KnownBytes.append_known};
ghost use Rattle.cs_base.specs.Lines.{line_feed};

use std::alloc::Global;
use std::io;
use std::io::Write;
use std::marker::Model;

/// The text that has not been written yet, because its line feed is still missing.
#[derive(Drop)]
pub struct LineBuffer {
    held: Vec<u8>,
}

impl Model for LineBuffer {
    ghost use Rattle.std.specs.Prelude.{ℕ, List, All, ◌≢◌};
    ghost use Rattle.cs_base.specs.Lines.{line_feed};

    ghost Value = { List ℕ };

    ghost view = { λ t. t.held.items };

    // The buffer has no line feed.
    ghost invariant = { λ t. All (λ b. b ≢ line_feed) t.held.items };
}

impl LineBuffer {
    /// Returns an empty buffer. It allocates nothing yet.
    pub fn new(alloc: Global) -> LineBuffer
        ensures { result ≡ [] }
    {
        LineBuffer {
            held: Vec::new(alloc),
        }
    }

    /// Takes a piece of text: writes the buffer and the piece up to its last line feed with one call of
    /// `write_all`, and stores the rest in the buffer. If memory runs out, it writes the rest, too. Returns
    /// the first error of a write; the buffer is then empty.
    pub fn put<W: Write>(&mut self, out: &mut W, piece: &[u8]) -> io::Result<()>
        // The writer's bytes followed by the buffer have grown by the piece.
        ensures taken { OnOk result (Appends (append_known (W.contents out.old) self.old)
            (append_known (W.contents out.new) self.new) piece.now) }
        ensures failed { OnErr result (self.new ≡ []) }
    {
        let end = lines_len(piece);
        if end == 0 {
            return add(out, &mut self.held, piece);
        }
        add_and_send(out, &mut self.held, &piece[..end])?;
        add(out, &mut self.held, &piece[end..])
    }

    /// Writes the buffer and empties it, even if the write fails.
    pub fn flush<W: Write>(&mut self, out: &mut W) -> io::Result<()>
        ensures written { OnOk result (Appends (W.contents out.old) (W.contents out.new) self.old) }
        ensures none { self.new ≡ [] }
    {
        send(out, &mut self.held)
    }
}

// Appends text to the buffer. If memory runs out, writes both.
fn add<W: Write>(out: &mut W, held: &mut Vec<u8>, text: &[u8]) -> io::Result<()>
    ensures taken { OnOk result (Appends (append_known (W.contents out.old) held.old.items)
        (append_known (W.contents out.new) held.new.items) text.now) }
    ensures kept { OnOk result ((held.new.items ≡ held.old.items ++ text.now) ⊎ (held.new.items ≡ [])) }
    ensures failed { OnErr result (held.new.items ≡ []) }
{
    if held.extend_from_slice(text).is_ok() {
        return Ok(());
    }
    send(out, held)?;
    out.write_all(text)
}

// Writes the buffer followed by the text and empties the buffer, even if a write fails.
fn add_and_send<W: Write>(out: &mut W, held: &mut Vec<u8>, text: &[u8]) -> io::Result<()>
    ensures written { OnOk result (Appends (append_known (W.contents out.old) held.old.items)
        (W.contents out.new) text.now) }
    ensures none { held.new.items ≡ [] }
{
    add(out, held, text)?;
    send(out, held)
}

// Writes the buffer and empties it, even if the write fails.
fn send<W: Write>(out: &mut W, held: &mut Vec<u8>) -> io::Result<()>
    ensures written { OnOk result (Appends (W.contents out.old) (W.contents out.new) held.old.items) }
    ensures none { held.new.items ≡ [] }
{
    let sent = out.write_all(held.as_slice());
    held.clear();
    sent
}

// The length of a text up to and including its last line feed; 0 if it has none.
fn lines_len(text: &[u8]) -> usize
    ensures within { result ≤ length text.now }
    ensures feed { 0 < result → slice_index_or text.now (result - 1) 0 ≡ line_feed }
    ensures rest { All (λ b. b ≢ line_feed) (drop result text.now) }
{
    let mut end = text.len();
    while end > 0 {
        if text[end - 1] == b'\n' {
            return end;
        }
        end -= 1;
    }
    0
}
