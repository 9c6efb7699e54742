// A line of a file, and its kind.
ghost use Rattle.std.specs.{List.list_all, Prelude.◌≡◌};
ghost use Rattle.cs_base.specs.Lines.{is_blank};
ghost use Rattle.cs_csd.specs.Lines.{after_blanks, closing, is_idle, is_start, is_tag, mark_of, opening};

use cs_base::{blanks_len, is_blank};

/// A section of a file.
#[derive(Clone, Copy)]
pub enum Section {
    Options,
    Instruments,
    Score,
}

/// The kind of a line between sections.
#[derive(Clone, Copy)]
pub enum LineMark {
    /// A line that has only blanks, or is a comment.
    Idle,
    /// A line that opens a section.
    Opens(Section),
    /// The last line that is read.
    Stop,
    /// A line that the profile doesn't have.
    Other,
}

impl Section {
    // Returns the tag that opens the section.
    fn opening(self) -> &'static [u8]
        ensures { result.now ≡ opening self }
    {
        match self {
            Section::Options => b"<CsOptions>",
            Section::Instruments => b"<CsInstruments>",
            Section::Score => b"<CsScore>",
        }
    }

    /// Returns the tag that closes the section.
    pub fn closing(self) -> &'static [u8]
        ensures { result.now ≡ closing self }
    {
        match self {
            Section::Options => b"</CsOptions>",
            Section::Instruments => b"</CsInstruments>",
            Section::Score => b"</CsScore>",
        }
    }
}

/// Returns the kind of a line between sections.
pub fn mark_of(bytes: &[u8]) -> LineMark
    ensures { result ≡ mark_of bytes.now }
{
    if is_idle(bytes) {
        LineMark::Idle
    } else if is_tag(Section::Options.opening(), bytes) {
        LineMark::Opens(Section::Options)
    } else if is_tag(Section::Instruments.opening(), bytes) {
        LineMark::Opens(Section::Instruments)
    } else if is_tag(Section::Score.opening(), bytes) {
        LineMark::Opens(Section::Score)
    } else if is_tag(b"</CsoundSynthesizer>", bytes) {
        LineMark::Stop
    } else {
        LineMark::Other
    }
}

/// Returns whether a line is the first that is read.
pub fn is_start(bytes: &[u8]) -> bool
    ensures { result ≡ is_start bytes.now }
{
    is_tag(b"<CsoundSynthesizer>", bytes)
}

/// Returns whether a line is a tag, with only blanks before and after it.
pub fn is_tag(tag: &[u8], bytes: &[u8]) -> bool
    ensures { result ≡ is_tag tag.now bytes.now }
{
    let text = after_blanks(bytes);
    text.starts_with(tag) && all_blank(&text[tag.len()..])
}

// Returns whether a line has only blanks, or is a comment.
fn is_idle(bytes: &[u8]) -> bool
    ensures { result ≡ is_idle bytes.now }
{
    all_blank(bytes) || after_blanks(bytes).starts_with(b";")
}

fn after_blanks(bytes: &[u8]) -> &[u8]
    ensures { result.now ≡ after_blanks bytes.now }
{
    &bytes[blanks_len(bytes)..]
}

fn all_blank(bytes: &[u8]) -> bool
    ensures { result ≡ list_all is_blank bytes.now }
{
    bytes.iter().all(|byte| is_blank(*byte))
}
