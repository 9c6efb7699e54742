// Header lines: their ranges, the equation between them, and the settings for the entire piece.
ghost use Rattle.std.specs.Prelude.{◌≡◌, ◌≤◌, ◌<◌, ◌^◌, ◌<ℤ◌, pos, [], Some, None};
ghost use Rattle.cs_words.specs.declared.word.HeadName.TheVariants as head;
ghost use Rattle.cs_typing.specs.Settings.{raw_of, whole, is_whole_to, is_above_zero, in_range, same_head};
ghost use Rattle.cs_typing.specs.Settings.{header_fault, headers_fault, header_of, whole_or, value_or};
ghost use Rattle.cs_typing.specs.Settings.{ksmps_of, header, is_product, kr_agrees, kr_fault};
ghost use Rattle.cs_base.specs.Heads.{header_of_head};

use cs_base::{GREATEST_KSMPS, GREATEST_SR, Head, MOST_CHANNELS, Num, ONE, OrcFault, OrcKind};
use cs_grammar::HeadLine;
use cs_words::HeadName;

// The raw value of a number in 65,536ths, or 0 if it is negative.
fn raw_of(value: Num) -> u64
    ensures value { result ≡ raw_of value }
    ensures bounded { result < 2 ^ 47 }
{
    if value.raw() < 0 {
        0
    } else {
        value.raw().unsigned_abs()
    }
}

/// Returns the integer part of a number, or 0 if it is negative.
pub fn whole(value: Num) -> u32
    ensures value { result ≡ whole value }
    ensures bounded { result < 2 ^ 31 }
{
    (raw_of(value) / ONE as u64) as u32
}

/// Whether a number is an integer from 1 to `most`.
pub fn is_whole_to(most: u32, value: Num) -> bool
    ensures { result ≡ is_whole_to most value }
{
    let raw = raw_of(value);
    raw % ONE as u64 == 0 && 1 <= raw / ONE as u64 && raw / ONE as u64 <= u64::from(most)
}

// Whether a header line may have this value; `kr` is checked later, against the other settings.
fn in_range(name: HeadName, value: Num) -> bool
    ensures { result ≡ in_range name value }
{
    match name {
        HeadName::Sr => is_whole_to(GREATEST_SR, value),
        HeadName::Kr => true,
        HeadName::Ksmps => is_whole_to(GREATEST_KSMPS, value),
        HeadName::Nchnls => is_whole_to(MOST_CHANNELS, value),
        HeadName::Dbfs => 0 < raw_of(value),
    }
}

fn same_head(a: HeadName, b: HeadName) -> bool
    ensures { result ≡ same_head a b }
{
    a == b
}

// The first rule that a header line breaks, given the earlier header lines.
#[tactic(auto, using(crate::proofs::Ranges::given))]
fn header_fault(before: &[HeadLine], line: HeadLine) -> Option<OrcKind>
    ensures { result ≡ header_fault before.now line }
{
    if !in_range(line.name, line.value) {
        Some(OrcKind::HeaderValue)
    } else if header_of(line.name, before).is_some() {
        Some(OrcKind::HeaderTwice)
    } else {
        None
    }
}

/// Returns the first rule that header lines break, or `None` if they break none. A fault is found at the
/// sixth line at the latest, since there are five names.
pub fn headers_fault(lines: &[HeadLine]) -> Option<OrcFault>
    ensures { result ≡ headers_fault [] lines.now }
{
    let mut n: usize = 0;
    for line in lines {
        if let Some(kind) = header_fault(&lines[..n], *line) {
            return Some(OrcFault {
                line: line.line,
                kind,
            });
        }
        n += 1;
    }
    None
}

fn header_of(name: HeadName, lines: &[HeadLine]) -> Option<HeadLine>
    ensures { result ≡ header_of name lines.now }
{
    for line in lines {
        if same_head(name, line.name) {
            return Some(*line);
        }
    }
    None
}

fn whole_or(other: u32, line: Option<HeadLine>) -> u32
    ensures { result ≡ whole_or other line }
{
    line.map_or(other, |line| whole(line.value))
}

fn value_or(other: Num, line: Option<HeadLine>) -> Num
    ensures { result ≡ value_or other line }
{
    line.map_or(other, |line| line.value)
}

// Frames per control cycle: the value of `ksmps`; without one, sr / kr, which is 0 if kr isn't positive;
// without either, 10.
fn ksmps_of(sr: u32, kr: Option<HeadLine>, ksmps: Option<HeadLine>) -> u64
    ensures { result ≡ ksmps_of sr kr ksmps }
{
    match (kr, ksmps) {
        (_, Some(line)) => u64::from(whole(line.value)),
        (Some(line), None) => (u64::from(sr) * ONE as u64)
            .checked_div(raw_of(line.value))
            .unwrap_or(0),
        (None, None) => 10,
    }
}

fn cycle(lines: &[HeadLine]) -> u64
    ensures { result ≡ (header lines.now).ksmps }
{
    let sr = whole_or(44_100, header_of(HeadName::Sr, lines));
    ksmps_of(
        sr,
        header_of(HeadName::Kr, lines),
        header_of(HeadName::Ksmps, lines),
    )
}

// Whether kr * ksmps = sr exactly, and a cycle has an allowed length.
fn kr_agrees(sr: u32, ksmps: u64, kr: Num) -> bool
    ensures { result ≡ kr_agrees sr ksmps kr }
{
    1 <= ksmps && ksmps <= 4096 && raw_of(kr) * ksmps == u64::from(sr) * ONE as u64
}

/// Returns the rule that `kr` breaks, or `None` if it breaks none.
pub fn kr_fault(lines: &[HeadLine]) -> Option<OrcFault>
    ensures { result ≡ kr_fault (header lines.now) (header_of head.Kr lines.now) }
{
    let kr = header_of(HeadName::Kr, lines)?;
    let sr = whole_or(44_100, header_of(HeadName::Sr, lines));
    if kr_agrees(sr, cycle(lines), kr.value) {
        None
    } else {
        Some(OrcFault {
            line: kr.line,
            kind: OrcKind::HeaderValue,
        })
    }
}

/// Returns the header that results from header lines without a fault.
pub fn head_of(lines: &[HeadLine]) -> Head
    requires lines { headers_fault [] lines.now ≡ None }
    requires kr { kr_fault (header lines.now) (header_of head.Kr lines.now) ≡ None }
    ensures { header_of_head result ≡ header lines.now }
{
    Head {
        sr: whole_or(44_100, header_of(HeadName::Sr, lines)),
        ksmps: cycle(lines) as u32,
        nchnls: whole_or(1, header_of(HeadName::Nchnls, lines)),
        dbfs: value_or(Num::exact(32_768 * ONE), header_of(HeadName::Dbfs, lines)),
    }
}
