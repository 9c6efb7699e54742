//! Trials of the program. A case is two texts that go through the public call `csplay` with objects in
//! memory; its result is one line, and the crate's `stdout` has the expected lines. The case files are in
//! data/, whose README.md describes how a case is written; the arguments of the program, the crate's `args`,
//! name them in the order in which they run.
//!
//! Nothing is proved about the results here, only that the trials are safe. If memory runs out or a file
//! can't be read, that is printed instead of the result.
//!
//! In reading order: `page` (what is written), `line` (the parts of a line of a case file), `text` (its
//! escapes), `gate` (what shows how workers run), `desk` (the case that is being made), `made` (the objects
//! of a run), `meters` (their lines), `play` (the runs of a case), `show` (its line) and `wave` (the samples
//! in it).
#![tactic(auto)]

mod desk;
mod gate;
mod line;
mod made;
mod meters;
mod page;
mod play;
mod show;
mod text;
mod wave;

use crate::desk::{CaseDesk, Command, command_of};
use crate::line::{number_of, parted, text_of};
use crate::page::Page;
use crate::play::{CaseRun, play};
use std::io::Write;
use std::rt::Files;
use std::sync::Wait;
use std::thread::Threads;
use std::{env, fs, io, thread};

fn main(rt: HostRuntime) -> io::Result<()> {
    let names: Vec<String> = env::args(&rt)?.skip(1).collect(rt.alloc())?;
    show_all(&rt, &names)
}

fn show_all<R: Files + Print + AllocGlobal + Threads + Wait + Sync>(
    rt: &R,
    names: &[String],
) -> io::Result<()> {
    for name in names {
        show_file(rt, name)?;
    }
    Ok(())
}

// Prints the results of a file's cases.
fn show_file<R: Files + Print + AllocGlobal + Threads + Wait + Sync>(
    rt: &R,
    name: &str,
) -> io::Result<()> {
    let mut out = Page::new(rt.alloc());
    run_file(rt, name, &mut out);
    io::writer(rt).write_all(out.shown())
}

fn run_file<R: Files + AllocGlobal + Threads + Wait + Sync>(rt: &R, name: &str, out: &mut Page) {
    out.add(b"== ");
    out.add(name.as_bytes());
    out.push(b'\n');
    match fs::read(rt, name) {
        Ok(text) => run_lines(rt, &text, out),
        Err(_) => out.spoil(),
    }
}

fn run_lines<R: Files + AllocGlobal + Threads + Wait + Sync>(rt: &R, text: &[u8], out: &mut Page) {
    let mut desk = CaseDesk::new(rt.alloc());
    for line in text.split(|byte| *byte == b'\n') {
        follow(rt, line, &mut desk, out);
    }
}

// Does what a line of a case file says.
fn follow<R: Files + AllocGlobal + Threads + Wait + Sync>(
    rt: &R,
    line: &[u8],
    desk: &mut CaseDesk,
    out: &mut Page,
) {
    match (text_of(line), str::from_utf8(line)) {
        (Some(piece), _) => desk.add(piece),
        (None, Ok(line)) => obey(rt, line, desk, out),
        (None, Err(_)) => say_wrong(out, line),
    }
}

fn obey<R: Files + AllocGlobal + Threads + Wait + Sync>(
    rt: &R,
    line: &str,
    desk: &mut CaseDesk,
    out: &mut Page,
) {
    let (word, rest) = parted(line);
    match command_of(word) {
        Command::Nothing => {}
        Command::Begin(filling) => add_file(rt, rest, desk.begin(filling)),
        Command::Crowd => desk.once.crowd(at_once(rt, number_of(rest.as_bytes()))),
        Command::Play => {
            say(rt, rest, desk, out);
            desk.forget();
        }
        Command::Once => {
            if !desk.once.take(word, rest) {
                say_wrong(out, line.as_bytes());
            }
        }
    }
}

// Returns how many of `notes` notes can be at work at the same time: no more than there are processors, if
// the system reports their number.
fn at_once<R: Threads>(rt: &R, notes: u32) -> u32 {
    match thread::available_parallelism(rt) {
        Ok(count) => u32::try_from(count.get()).unwrap_or(notes).min(notes),
        Err(_) => notes,
    }
}

// Appends the bytes of a file; an empty path appends nothing.
fn add_file<R: Files + AllocGlobal>(rt: &R, path: &str, to: &mut Page) {
    if path.is_empty() {
        return;
    }
    match fs::read(rt, path) {
        Ok(text) => to.add(&text),
        Err(_) => to.spoil(),
    }
}

// Runs a case and appends its line. A piece that is played is played with other crews too.
fn say<R: AllocGlobal + Threads + Wait + Sync>(
    rt: &R,
    name: &str,
    desk: &CaseDesk,
    out: &mut Page,
) {
    let mut line = Page::new(rt.alloc());
    let crew = b"";
    let status = play(rt, CaseRun { name, desk, crew }, &mut line);
    out.add(line.shown());
    if status == 0 && desk.is_for_any_crew() {
        say_by(rt, name, desk, b"-j\n4\n", &line, out);
        say_by(rt, name, desk, b"--pool\n-j\n4\n", &line, out);
        say_by(rt, name, desk, b"-j\n32\n", &line, out);
    }
}

// Runs the case with a crew, and appends its line if it differs.
fn say_by<R: AllocGlobal + Threads + Wait + Sync>(
    rt: &R,
    name: &str,
    desk: &CaseDesk,
    crew: &[u8],
    line: &Page,
    out: &mut Page,
) {
    let mut other = Page::new(rt.alloc());
    play(rt, CaseRun { name, desk, crew }, &mut other);
    if other.shown() != line.shown() {
        out.add(b"another line, by ");
        out.add_shown(crew);
        out.add(b":\n");
        out.add(other.shown());
    }
}

fn say_wrong(out: &mut Page, line: &[u8]) {
    out.add(b"not understood: ");
    out.add_shown(line);
    out.push(b'\n');
}
