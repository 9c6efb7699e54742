// The parts of a line of a case file.

/// A text that is added `times` times, with or without a line feed after it.
#[derive(Clone, Copy)]
pub struct CaseText<'a> {
    pub times: u32,
    pub text: &'a [u8],
    pub feed: bool,
}

/// Returns the text that a line adds: after `|` with a line feed, after `>` without; a number before the sign
/// says how many times.
pub fn text_of(line: &[u8]) -> Option<CaseText<'_>> {
    let digits = line.iter().position(|byte| !byte.is_ascii_digit());
    let (front, rest) = line.split_at(digits.unwrap_or(usize::MAX).min(line.len()));
    match rest {
        [b'|', text @ ..] => Some(piece_of(front, text, true)),
        [b'>', text @ ..] => Some(piece_of(front, text, false)),
        _ => None,
    }
}

// Skips one blank after the sign; without a number the text is added once.
fn piece_of<'a>(number: &'a [u8], text: &'a [u8], feed: bool) -> CaseText<'a> {
    let text = match text {
        [b' ', rest @ ..] => rest,
        _ => text,
    };
    let times = if number.is_empty() {
        1
    } else {
        number_of(number)
    };
    CaseText { times, text, feed }
}

/// Returns the first word, and the text after its blank.
pub fn parted(text: &str) -> (&str, &str) {
    text.split_once(' ').unwrap_or((text, ""))
}

/// Returns the number that digits mean.
pub fn number_of(digits: &[u8]) -> u32 {
    let mut number = 0u32;
    for digit in digits {
        let value = u32::from(digit.wrapping_sub(b'0'));
        number = number.saturating_mul(10).saturating_add(value);
    }
    number
}
