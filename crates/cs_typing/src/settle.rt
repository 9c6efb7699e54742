// Settings: the result of header lines and `zakinit`s, which are checked before any statement.
ghost use Rattle.std.specs.Prelude.{◌≡◌, None, []};
ghost use Rattle.cs_words.specs.declared.word.HeadName.TheVariants as head;
ghost use Rattle.cs_grammar.specs.Tree.{block};
ghost use Rattle.cs_typing.specs.Settings.{earlier, settings_fault, headers_fault, header_of, header, kr_fault};
ghost use Rattle.cs_typing.specs.{Settings.zaks_of_block, Settings.zak_spaces, inner.Answers.Gives};
ghost use Rattle.cs_typing.specs.inner.Settled.{settings_of, told};

use crate::headers::{head_of, headers_fault, kr_fault};
use crate::zak::zaks_of;
use cs_base::{Head, Or, OrcFault, Spaces};
use cs_grammar::{HeadLine, OrcStmt};

/// The settings of an entire piece: its header and its zak spaces.
#[derive(Clone, Copy)]
pub struct Settings {
    pub head: Head,
    pub spaces: Spaces,
}

// The earlier of two faults in the text.
fn earlier(f: Option<OrcFault>, g: Option<OrcFault>) -> Option<OrcFault>
    ensures { result ≡ earlier f g }
{
    match (f, g) {
        (None, g) => g,
        (f, None) => f,
        (Some(f), Some(g)) => { if f.line <= g.line { Some(f) } else { Some(g) } }
    }
}

/// Checks header lines, the `zakinit`s among the statements outside instruments, and `kr`; returns the
/// resulting settings.
pub fn judge_settings(lines: &[HeadLine], outside: &[OrcStmt]) -> Result<Settings, Or<OrcFault>>
    ensures { Gives settings_of result (settings_fault lines.now (block outside.now))
        (told (header lines.now) (zak_spaces (zaks_of_block (block outside.now)))) }
{
    let zaks = zaks_of(outside);
    match earlier(headers_fault(lines), zaks.fault).or(kr_fault(lines)) {
        Some(fault) => Err(Or::Fault(fault)),
        None => Ok(Settings {
            head: head_of(lines),
            spaces: zaks.spaces,
        }),
    }
}
