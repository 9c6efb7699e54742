//! Trials of calls that the program makes in another way or not at all: it checks codes made by hand, runs notes over
//! cells in plain memory, uses the adapters over files of the system, and reads counts that no other code reads. No
//! clause states the samples of these notes or the contents of a file: the expected output is in `stdout`, worked out
//! by hand from docs/LANGUAGE.md. No crate of the product depends on this one, and it proves nothing about the others.
//!
//! In reading order: `codes` (codes made by hand), `notes` (how a note begins and runs over plain memory), `rows`
//! (small notes), `files` (the adapters over files).
#![tactic(auto)]

mod codes;
mod files;
mod notes;
mod rows;

use crate::codes::{CASES, handed_back};
use crate::files::{mirrored, spoken, text_read, text_written};
use crate::rows::{computed_table, long_delay, missing_table, older_note, turned_off, zak_place};
use std::io;
use std::rt::Files;

fn main(rt: HostRuntime) -> io::Result<()> {
    for case in &CASES {
        show_code(&rt, case.what, handed_back(rt.alloc(), case))?;
    }
    show_notes(&rt)?;
    show_files(&rt)
}

fn show_code<R: Print>(rt: &R, what: &str, back: Option<Option<usize>>) -> io::Result<()> {
    match back {
        Some(None) => println!(rt; "{what}: can be run"),
        Some(Some(steps)) => println!(rt; "{what}: handed back, steps: {steps}"),
        None => println!(rt; "{what}: out of memory"),
    }
}

fn show_notes<R: Print + AllocGlobal>(rt: &R) -> io::Result<()> {
    let alloc = rt.alloc();
    println!(rt;
        "a store of 7 that another note reads: {:?}",
        zak_place(alloc)
    )?;
    println!(rt;
        "turned off after one cycle and after two: {:?}",
        turned_off(alloc)
    )?;
    println!(rt; "a delay of 40,000 seconds: {:?}", long_delay(alloc))?;
    println!(rt; "a table that isn't there: {:?}", missing_table(alloc))?;
    let touched = computed_table(alloc);
    println!(rt; "a store into a computed table, of the tables 1 and 2: {touched:?}")?;
    println!(rt;
        "the age of a note that begins after four: {:?}",
        older_note(alloc)
    )
}

fn show_files<R: Print + AllocGlobal + Files>(rt: &R) -> io::Result<()> {
    let alloc = rt.alloc();
    println!(rt;
        "a file that is written: {:?}",
        text_written(rt, alloc, "written.wav")
    )?;
    println!(rt; "the same file read: {:?}", text_read(rt, "written.wav"))?;
    println!(rt;
        "a file that isn't there: {:?}",
        text_read(rt, "/no/such/file")
    )?;
    println!(rt;
        "a file in no folder: {:?}",
        text_written(rt, alloc, "/no/such/folder/a")
    )?;
    println!(rt; "a full disk: {:?}", text_written(rt, alloc, "/dev/full"))?;
    println!(rt; "text without a line feed:")?;
    let ended = spoken(rt, alloc);
    println!(rt; "\nits calls: {ended:?}")?;
    println!(rt;
        "values that a mirror of two was told: {:?}",
        mirrored(alloc)
    )
}
