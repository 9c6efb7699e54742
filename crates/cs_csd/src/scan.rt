// The state of the reader, line after line.
ghost use Rattle.std.specs.Prelude.{◌≡◌, ◌≤◌, ◌+◌, length};
ghost use Rattle.cs_base.specs.{Limits.most_csd_bytes, Lines.line};
ghost use Rattle.cs_csd.specs.Lines.{mark_of};
ghost use Rattle.cs_csd.specs.Sections.{fault, nothing_found, stood, with_section};
ghost use Rattle.cs_csd.specs.inner.Scan.{finish, marked, opened, step, stopped};

use crate::line::{LineMark, Section, is_start, is_tag, mark_of};
use crate::{Part, Parts};
use cs_base::{CsdFault, CsdKind};

/// The sections that were found before; the text of the options isn't stored.
#[derive(Clone, Copy)]
pub struct SectionsFound {
    pub options: bool,
    pub orc: Option<Part>,
    pub sco: Option<Part>,
}

/// The state of the reader.
#[derive(Clone, Copy)]
pub enum ScanState {
    /// Before the first tag.
    Before,
    /// Between sections.
    Between(SectionsFound),
    /// In a section, whose text begins at the part's start.
    Inside(SectionsFound, Section, Part),
    /// After the last tag.
    Done(Parts),
}

impl SectionsFound {
    /// Makes the state in which no section was found.
    pub fn nothing() -> SectionsFound
        ensures { result ≡ nothing_found }
    {
        SectionsFound {
            options: false,
            orc: None,
            sco: None,
        }
    }

    // Returns whether a section was found before.
    fn has(&self, section: Section) -> bool
        ensures { result ≡ stood section self.now }
    {
        match section {
            Section::Options => self.options,
            Section::Instruments => self.orc.is_some(),
            Section::Score => self.sco.is_some(),
        }
    }

    // Adds a section to those that were found.
    fn with(self, section: Section, part: Part) -> SectionsFound
        ensures { result ≡ with_section section part self }
    {
        let mut found = self;
        match section {
            Section::Options => found.options = true,
            Section::Instruments => found.orc = Some(part),
            Section::Score => found.sco = Some(part),
        }
        found
    }
}

impl ScanState {
    /// Returns the state after a line with this number, whose first byte is at offset `at`.
    pub fn step(self, number: u32, at: u32, bytes: &[u8]) -> Result<ScanState, CsdFault>
        requires place { at + length bytes.now ≤ most_csd_bytes }
        requires number { number ≤ most_csd_bytes + 1 }
        ensures { result ≡ step self (line number at bytes.now) }
    {
        match self {
            ScanState::Before if is_start(bytes) => Ok(ScanState::Between(
                SectionsFound::nothing(),
            )),
            ScanState::Between(found) => between(found, number, at, bytes),
            ScanState::Inside(found, section, part) if is_tag(section.closing(), bytes) => {
                Ok(ScanState::Between(found.with(section, Part { to: at, ..part })))
            }
            ScanState::Before | ScanState::Inside(_, _, _) | ScanState::Done(_) => Ok(self),
        }
    }

    /// Returns the result of a file that ends here, and whose last line has this number.
    pub fn finish(self, last: u32) -> Result<Parts, CsdFault>
        ensures { result ≡ finish last self }
    {
        match self {
            ScanState::Done(parts) => Ok(parts),
            _ => Err(fault(CsdKind::MissingTag, last)),
        }
    }
}

// Returns the state after a line between sections.
fn between(found: SectionsFound, number: u32, at: u32, bytes: &[u8]) -> Result<ScanState, CsdFault>
    requires place { at + length bytes.now ≤ most_csd_bytes }
    requires number { number ≤ most_csd_bytes + 1 }
    ensures { result ≡ marked (line number at bytes.now) found (mark_of bytes.now) }
{
    match mark_of(bytes) {
        LineMark::Idle => Ok(ScanState::Between(found)),
        LineMark::Opens(section) => opened(section, number, at + bytes.len() as u32 + 1, found),
        LineMark::Stop => stopped(number, found),
        LineMark::Other => Err(fault(CsdKind::NotInProfile, number)),
    }
}

// Returns the state after a line that opens a section, whose text begins on the next line.
fn opened(
    section: Section,
    number: u32,
    from: u32,
    found: SectionsFound,
) -> Result<ScanState, CsdFault>
    requires { number ≤ most_csd_bytes + 1 }
    ensures { result ≡ opened section number from found }
{
    if found.has(section) {
        return Err(fault(CsdKind::SectionTwice, number));
    }
    let part = Part {
        from,
        to: from,
        line: number + 1,
    };
    Ok(ScanState::Inside(found, section, part))
}

// Returns the state after the last line that is read.
fn stopped(number: u32, found: SectionsFound) -> Result<ScanState, CsdFault>
    ensures { result ≡ stopped number found found.orc }
{
    match found.orc {
        None => Err(fault(CsdKind::MissingTag, number)),
        Some(orc) => Ok(ScanState::Done(Parts {
            orc,
            sco: found.sco.unwrap_or(Part {
                from: 0,
                to: 0,
                line: 1,
            }),
        })),
    }
}

fn fault(kind: CsdKind, line: u32) -> CsdFault
    ensures { result ≡ fault kind line }
{
    CsdFault { line, kind }
}
