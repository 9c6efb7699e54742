// Finds a file in a list of files, by name and by index.
ghost use Rattle.std.specs.Prelude.{◌≡◌, ◌-◌, length, min, take, drop, Some, None, MatchOption};
ghost use Rattle.cs_edge.specs.{Files.file_named, Memory.bytes_at};

use crate::NamedBytes;

/// Returns the index of the first file with this name, or `None` if there is none.
pub fn place_in(files: &[NamedBytes], name: &str) -> Option<usize>
    ensures { MatchOption result (file_named name.now files.now ≡ None)
        (λ place. file_named name.now files.now ≡ Some (bytes_at (Some place) files.now)) }
{
    for (place, file) in files.iter().enumerate() {
        if file.name.as_str() == name {
            return Some(place);
        }
    }
    None
}

/// Returns the bytes of the file at index `place`; empty for `None`.
pub fn bytes_of(files: &[NamedBytes], place: Option<usize>) -> &[u8]
    ensures { result.now ≡ bytes_at place files.now }
{
    let Some(place) = place else {
        return &[];
    };
    if place < files.len() {
        files[place].bytes.as_slice()
    } else {
        &[]
    }
}

/// Copies as many bytes as there are and as fit, from index `at` of `bytes` on, into the buffer, and returns
/// their number.
pub fn copy_front(bytes: &[u8], at: usize, buf: &mut [u8]) -> usize
    ensures count { result ≡ min (length buf.old) (length bytes.now - at) }
    ensures taken { take result buf.new ≡ take result (drop at bytes.now) }
{
    let left = bytes.len().saturating_sub(at);
    let n = buf.len().min(left);
    for i in 0..n {
        buf[i] = bytes[at + i];
    }
    n
}
