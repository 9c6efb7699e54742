// The samples of a sound file, as runs of equal frames.
use crate::page::Page;

// After this many runs of equal frames, only the number of runs and a checksum of the file are printed.
const MOST_RUNS: u64 = 20;

// The length of the header in bytes.
const HEADER: usize = 44;

// How the frames of a file are laid out.
#[derive(Clone, Copy)]
struct Layout {
    // The number of bytes of a sample.
    width: usize,
    // The number of bytes of a frame.
    frame: usize,
}

/// Writes a file's sample rate, its length in bytes, and its samples.
pub fn add_wave(out: &mut Page, wav: &[u8]) {
    if wav.len() >= HEADER {
        out.add(b", sr ");
        out.add_number(number_at(wav, 24, 4));
    }
    out.add(b", ");
    out.add_number(wav.len() as u64);
    out.add(b" bytes");
    match wav.get(HEADER..) {
        Some([]) | None => {}
        Some(samples) => {
            out.add(b": ");
            let runs = add_runs(out, samples, layout_of(wav));
            add_rest(out, runs, wav);
        }
    }
}

fn layout_of(wav: &[u8]) -> Layout {
    Layout {
        width: (number_at(wav, 34, 2) / 8) as usize,
        frame: number_at(wav, 32, 2) as usize,
    }
}

// Returns a number of `width` bytes at an offset, the lowest byte first.
fn number_at(bytes: &[u8], at: usize, width: usize) -> u64 {
    let mut number = 0u64;
    for place in (0..width).rev() {
        let byte = bytes.get(at.saturating_add(place)).copied().unwrap_or(0);
        number = number.wrapping_mul(256).wrapping_add(u64::from(byte));
    }
    number
}

// Writes the first runs, and returns their number.
fn add_runs(out: &mut Page, samples: &[u8], layout: Layout) -> u64 {
    let mut last: &[u8] = &[];
    let mut times = 0u64;
    let mut runs = 0u64;
    for frame in samples.chunks(layout.frame.max(1)) {
        if frame != last && times > 0 {
            add_run(out, last, times, runs, layout);
            runs = runs.saturating_add(1);
            times = 0;
        }
        last = frame;
        times = times.saturating_add(1);
    }
    add_run(out, last, times, runs, layout);
    runs.saturating_add(1)
}

fn add_run(out: &mut Page, frame: &[u8], times: u64, run: u64, layout: Layout) {
    if run >= MOST_RUNS {
        return;
    }
    if run > 0 {
        out.add(b", ");
    }
    out.add_number(times);
    out.add(b" x ");
    add_frame(out, frame, layout);
}

// Writes the values of a frame's channels, in order.
fn add_frame(out: &mut Page, frame: &[u8], layout: Layout) {
    let mut is_first = true;
    for sample in frame.chunks(layout.width.max(1)) {
        if !is_first {
            out.push(b'/');
        }
        is_first = false;
        add_value(out, value_of(sample));
    }
}

fn add_value(out: &mut Page, value: i64) {
    if value < 0 {
        out.push(b'-');
    }
    out.add_number(value.unsigned_abs());
}

// Returns the value of a sample of two or three bytes.
fn value_of(sample: &[u8]) -> i64 {
    match sample {
        [low, high] => i64::from(i16::from_le_bytes([*low, *high])),
        [low, middle, high] => i64::from(i32::from_le_bytes([0, *low, *middle, *high])) / 256,
        _ => 0,
    }
}

// Writes, if not all runs are shown, how many there are, and the Adler-32 checksum of the file.
fn add_rest(out: &mut Page, runs: u64, wav: &[u8]) {
    if runs <= MOST_RUNS {
        return;
    }
    out.add(b" .. of ");
    out.add_number(runs);
    out.add(b" runs, adler32 ");
    for byte in adler32(wav).to_be_bytes() {
        out.add_digits(byte);
    }
}

fn adler32(bytes: &[u8]) -> u32 {
    let mut low = 1u32;
    let mut high = 0u32;
    for byte in bytes {
        low = low.wrapping_add(u32::from(*byte)) % 65_521;
        high = high.wrapping_add(low) % 65_521;
    }
    high.wrapping_mul(65_536).wrapping_add(low)
}
