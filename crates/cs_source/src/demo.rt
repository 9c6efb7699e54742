// The two texts of the demo.
ghost use Rattle.std.specs.Prelude.{◌≡◌, ◌++◌, IfOk, string_bytes};
ghost use Rattle.cs_source.specs.DemoTexts.{instrument_of, last_lines, note_line, note_lines, orchestra, score};

use std::alloc::{AllocError, Global};

const ORCHESTRA: &[u8] = b"sr = 8000\nksmps = 16\nnchnls = 1\nga1 init 0\n\
    instr 1\na1 oscili p4, p5, 1\nout a1\nendin\n\
    instr 2\na1 oscili p4, p5, 1\nga1 += a1\nendin\n\
    instr 90\na1 delay ga1, .05\nout a1\nga1 = 0\nendin\n";

/// Returns the demo's orchestra, which is the same for any number of notes.
pub fn demo_orchestra(alloc: Global) -> Result<Vec<u8>, AllocError>
    ensures { IfOk result (λ text. text.items ≡ orchestra) }
{
    Vec::from_slice(alloc, ORCHESTRA)
}

/// Returns the demo's score for `notes` notes, each of which lasts a second; 64 of them begin in each second.
pub fn demo_score(alloc: Global, notes: u32) -> Result<Vec<u8>, AllocError>
    ensures { IfOk result (λ text. text.items ≡ score notes) }
{
    let mut text = Vec::from_slice(alloc, b"f1 0 1024 10 1\n")?;
    add_notes(alloc, notes, &mut text)?;
    add(&last(alloc, notes)?, &mut text)?;
    Ok(text)
}

// Appends the lines of the first `notes` notes.
fn add_notes(alloc: Global, notes: u32, text: &mut Vec<u8>) -> Result<(), AllocError>
    ensures { IfOk result (λ _. text.new.items ≡ text.old.items ++ note_lines notes) }
{
    for number in 0..notes {
        add_note(alloc, number, text)?;
    }
    Ok(())
}

fn add_note(alloc: Global, number: u32, text: &mut Vec<u8>) -> Result<(), AllocError>
    ensures { IfOk result (λ _. text.new.items ≡ text.old.items ++ note_line number) }
{
    add(&note(alloc, number)?, text)
}

fn add(line: &str, text: &mut Vec<u8>) -> Result<(), AllocError>
    ensures { IfOk result (λ _. text.new.items ≡ text.old.items ++ line.now) }
{
    text.extend_from_slice(line.as_bytes())?;
    Ok(())
}

// Returns a note's line.
fn note(alloc: Global, number: u32) -> Result<String, AllocError>
    ensures { IfOk result (λ line. string_bytes line ≡ note_line number) }
{
    let instrument = instrument(number);
    let start = number / 64;
    let loudness = 100 + number % 7;
    let frequency = 100 + number % 500;
    format!(in alloc; "i{instrument} {start} 1 {loudness} {frequency}\n")
}

// Returns the number of the instrument that plays a note.
fn instrument(number: u32) -> u32
    ensures { result ≡ instrument_of number }
{
    if number % 8 == 0 { 2 } else { 1 }
}

// Returns the lines after the notes.
fn last(alloc: Global, notes: u32) -> Result<String, AllocError>
    ensures { IfOk result (λ lines. string_bytes lines ≡ last_lines notes) }
{
    let seconds = (u64::from(notes) + 63) / 64;
    format!(in alloc; "i90 0 {seconds}\ne\n")
}
