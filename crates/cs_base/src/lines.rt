// Blanks, line feeds and lines, which are the same in all texts.
ghost use Rattle.std.specs.Prelude.{◌≡◌, ◌≤◌, ◌<◌, ◌^◌, length, count_by};
ghost use Rattle.std.specs.List.{prefix_len};
ghost use Rattle.cs_base.specs.Lines.{is_blank, is_feed, is_line_byte, next_len};

/// Whether a byte is a blank: a space, a tab or a carriage return.
pub fn is_blank(byte: u8) -> bool
    ensures { result ≡ is_blank byte }
{
    byte == b' ' || byte == b'\t' || byte == b'\r'
}

/// Returns the number of bytes before the first line feed, or the length of the text if there is none.
pub fn line_len(text: &[u8]) -> usize
    ensures value { result ≡ prefix_len is_line_byte text.now }
    ensures within { result ≤ length text.now }
{
    text.iter().take_while(|byte| **byte != b'\n').count()
}

/// Returns the length in bytes of a text's first line, including its line feed.
pub fn next_len(text: &[u8]) -> usize
    ensures { result ≡ next_len text.now }
{
    (line_len(text) + 1).min(text.len())
}

/// Returns the number of blanks at the start of a text.
pub fn blanks_len(text: &[u8]) -> usize
    ensures value { result ≡ prefix_len is_blank text.now }
    ensures within { result ≤ length text.now }
{
    text.iter().take_while(|byte| is_blank(**byte)).count()
}

/// Returns the number of line feeds in a text.
pub fn feeds(text: &[u8]) -> u32
    requires { length text.now < 2 ^ 32 }
    ensures { result ≡ count_by is_feed text.now }
{
    text.iter().filter(|byte| **byte == b'\n').count() as u32
}
