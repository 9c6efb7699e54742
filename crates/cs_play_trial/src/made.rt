// The objects of a run of a case.
use crate::desk::{CaseDesk, Once};
use crate::gate::CaseGate;
use crate::page::Page;
use cs_base::{Bytes, Text};
use cs_edge::{Calls, Files, MemShelf, MemSink, NamedBytes};
use std::alloc::Global;
use std::sync::Arc;
use std::sync::atomic::AtomicU64;

/// The objects of one run besides the shelf, and their state after it.
#[derive(Drop)]
pub struct CaseStage {
    pub wav: MemSink,
    pub talk: MemSink,
    pub gate: CaseGate,
    /// The number of meters that were dropped, if that is recorded, and how many of them were dropped before
    /// the list of the meters.
    pub drops: Option<Arc<AtomicU64>>,
    pub early: u64,
    /// The lines of the meters.
    pub told: Page,
}

impl CaseStage {
    /// Makes the objects of one run with these settings.
    pub fn new(alloc: Global, once: Once) -> CaseStage {
        let mut told = Page::new(alloc);
        CaseStage {
            wav: sink_of(alloc, once.wav_fails, once.wav_room, &mut told),
            talk: sink_of(alloc, once.talk_fails, once.talk_room, &mut told),
            gate: CaseGate::new(once.task),
            drops: None,
            early: 0,
            told,
        }
    }
}

/// Appends the arguments of a case to others.
pub fn add_words(words: &mut Vec<String>, front: &[u8], desk: &CaseDesk, out: &mut Page) {
    add_lines(words, front, out);
    if desk.once.wide {
        add_lines(words, b"-3\n", out);
    }
    add_lines(words, desk.own_words(), out);
    if !desk.words.is_whole() {
        out.spoil();
    }
}

// Appends arguments, one in each line; text that isn't UTF-8 is skipped.
fn add_lines(words: &mut Vec<String>, text: &[u8], out: &mut Page) {
    if let Some(text) = text.strip_suffix(b"\n") {
        for word in text.split(|byte| *byte == b'\n') {
            if let Ok(word) = str::from_utf8(word) {
                add_word(words, word, out);
            }
        }
    }
}

fn add_word(words: &mut Vec<String>, word: &str, out: &mut Page) {
    let is_added = match String::from_str(*words.allocator(), word) {
        Ok(word) => words.push(word).is_ok(),
        Err(_) => false,
    };
    if !is_added {
        out.spoil();
    }
}

/// Returns the shelf of a case.
pub fn shelf_of(alloc: Global, desk: &CaseDesk, out: &mut Page) -> MemShelf {
    let files = files_of(alloc, desk, out);
    MemShelf::new(alloc, files, failing(alloc, desk.once.shelf_fails, out))
}

/// Returns the two texts of a case, and the file with both, which is written as an orchestra.
pub fn files_of(alloc: Global, desk: &CaseDesk, out: &mut Page) -> Files {
    let mut files = Files::new(alloc);
    add_file(alloc, &mut files, "a.orc", &desk.orchestra, out);
    add_file(alloc, &mut files, "a.sco", &desk.score, out);
    add_file(alloc, &mut files, "a.csd", &desk.orchestra, out);
    files
}

fn add_file(alloc: Global, files: &mut Files, name: &str, text: &Page, out: &mut Page) {
    let is_added = match file_of(alloc, name, text.bytes()) {
        Some(file) => files.push(file).is_ok(),
        None => false,
    };
    if !(is_added && text.is_whole()) {
        out.spoil();
    }
}

fn file_of(alloc: Global, name: &str, text: &[u8]) -> Option<NamedBytes> {
    let Ok(name) = String::from_str(alloc, name) else {
        return None;
    };
    match Bytes::of_slice(alloc, text) {
        Ok(bytes) => Some(NamedBytes {
            name: Text::from_string(name),
            bytes,
        }),
        Err(_) => None,
    }
}

// Returns a sink whose call number `fails` fails, and which accepts at most `room` bytes in a write; 0 is no
// limit.
fn sink_of(alloc: Global, fails: u32, room: u32, out: &mut Page) -> MemSink {
    let room = if room == 0 { u32::MAX } else { room };
    MemSink::new(alloc, failing(alloc, fails, out), room)
}

// Returns the one call that fails; 0 is none.
fn failing(alloc: Global, call: u32, out: &mut Page) -> Calls {
    let mut calls = Calls::new(alloc);
    if calls.push(u64::from(call)).is_err() {
        out.spoil();
    }
    calls
}
