// A table of spellings, and how a row of it is found.
ghost use Rattle.std.specs.Prelude.{◌≡◌};
ghost use Rattle.cs_words.specs.{Tables.looked_up, inner.Tables.rows};

/// Returns the value of the first row with this spelling, or `None` if there is none.
pub fn looked_up<T: Copy>(table: &[(&str, T)], bytes: &[u8]) -> Option<T>
    ensures { result ≡ looked_up (rows table.now) bytes.now }
{
    for (spelling, meaning) in table {
        if bytes == spelling.as_bytes() {
            return Some(*meaning);
        }
    }
    None
}
