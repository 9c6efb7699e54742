// The complete file.
ghost use Rattle.std.specs.Prelude.{◌≤◌, length};
ghost use Rattle.cs_base.specs.Limits.{most_csd_bytes};
ghost use Rattle.cs_csd.specs.Sections.{Reading};

use crate::Parts;
use crate::scan::ScanState;
use cs_base::{CsdFault, line_len, next_len};

/// Returns the offsets of the orchestra and the score in a file, or the first fault of its tags. It allocates
/// nothing.
pub fn split_csd(text: &[u8]) -> Result<Parts, CsdFault>
    requires { length text.now ≤ most_csd_bytes }
    ensures { Reading text.now result }
{
    let mut state = ScanState::Before;
    let mut at = 0;
    let mut line = 1;
    while at < text.len() {
        let rest = &text[at..];
        match state.step(line, at as u32, &rest[..line_len(rest)]) {
            Ok(next) => state = next,
            Err(fault) => return Err(fault),
        }
        at += next_len(rest);
        line += 1;
    }
    state.finish((line - 1).max(1))
}
