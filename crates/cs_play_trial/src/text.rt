// The escapes in a text: a grave accent is followed by two hexadecimal digits, which are a byte, or by `#`,
// the number of the time that the text is added.
use crate::line::CaseText;
use crate::page::Page;

// How far an escape has been read.
#[derive(Clone, Copy)]
enum Escape {
    None,
    Begun,
    // Its first digit was read.
    Digit(u8),
}

/// Appends a text as many times as it says.
pub fn add_piece(to: &mut Page, piece: CaseText<'_>) {
    for number in 0..piece.times {
        add_text(to, piece.text, number.saturating_add(1));
        if piece.feed {
            to.push(b'\n');
        }
    }
}

fn add_text(to: &mut Page, text: &[u8], number: u32) {
    let mut escape = Escape::None;
    for byte in text {
        escape = add_byte(to, escape, *byte, number);
    }
}

// Appends the byte that an escape yields, and returns how far the escape has been read after it.
fn add_byte(to: &mut Page, escape: Escape, byte: u8, number: u32) -> Escape {
    match (escape, byte) {
        (Escape::None, b'`') => return Escape::Begun,
        (Escape::None, _) => to.push(byte),
        (Escape::Begun, b'#') => to.add_number(u64::from(number)),
        (Escape::Begun, _) => return Escape::Digit(byte),
        (Escape::Digit(high), _) => to.push(byte_of(high, byte)),
    }
    Escape::None
}

fn byte_of(high: u8, low: u8) -> u8 {
    value_of(high).wrapping_mul(16).wrapping_add(value_of(low))
}

fn value_of(digit: u8) -> u8 {
    char::from(digit).to_digit(16).unwrap_or(0).min(15) as u8
}
