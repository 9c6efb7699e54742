// The parts of one file with both texts.
ghost use Rattle.std.specs.Prelude.{◌≡◌, ◌≤◌, ◌+◌};
ghost use Rattle.cs_base.specs.Limits.{most_csd_bytes};
ghost use Rattle.cs_source.specs.Meaning.{excerpt_of, part_of};

use cs_base::Excerpt;
use cs_csd::Part;

/// Returns the text of a part, which begins on the part's line of the file.
pub fn excerpt_of<'a>(text: &'a [u8], part: Part) -> Excerpt<'a>
    requires { part.line ≤ most_csd_bytes + 1 }
    ensures { result ≡ excerpt_of text.now part }
{
    Excerpt::new(part.line, part_of(text, part))
}

fn part_of(text: &[u8], part: Part) -> &[u8]
    ensures { result.now ≡ part_of text.now part }
{
    let rest = &text[text.len().min(part.from as usize)..];
    let len = part.to.saturating_sub(part.from) as usize;
    &rest[..rest.len().min(len)]
}
